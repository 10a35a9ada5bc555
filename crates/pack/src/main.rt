// The echo canceller's run as a capture of records: pairs from standard input, TauCanceller with four partitions and suppression, records
// to standard output. Pairs go in by 512; a record of them and one of what they delivered come out, and last those of the flush. What
// comes between a read and a write is `recorded`'s.
//
// At the input's end an unfinished pair is dropped. A read or a write that fails is told of on standard error, and ends the run; after a
// failed read what was read is still recorded and flushed. No call is refused (theorem `program` of recorded).
#![tactic(auto)]

ghost use Rattle.std.specs.Prelude.{◌≡◌};
ghost use Rattle.recorded.specs.Program.{engine_by, block_of, flush_of};

use capture::Engine;
use pipe::{ProgramError, Streams};
use std::io::{Read, Write};

fn main(rt: HostRuntime) {
    let mut streams = Streams {
        program: "pack",
        input: rt.stdin(),
        output: rt.stdout(),
        errors: rt.stderr(),
    };
    if let Err(error) = drive(&mut streams) {
        streams.say(error);
    }
}

fn drive<R: Read, W: Write, E: Write>(streams: &mut Streams<R, W, E>) -> Result<(), ProgramError> {
    let mut engine = Engine::new();
    let mut block = [0u8; 4096];
    // Nothing says that the input ends, and a proved loop has to: no run comes to so many blocks.
    for _ in 0..u64::MAX {
        let held = streams.fill(&mut block);
        // A block that is not full is the last, and one with no whole pair is none.
        if held >= 8 {
            feed(streams, &mut engine, &block[..held])?;
        }
        if held < 4096 {
            break;
        }
    }
    finish(streams, &mut engine)
}

// The pairs of a block, and what they deliver. All but the writing is said: the engine after it.
fn feed<R: Read, W: Write, E: Write>(
    streams: &mut Streams<R, W, E>,
    engine: &mut Engine,
    held: &[u8],
) -> Result<(), ProgramError>
    ensures { engine.new ≡ engine_by (block_of engine.old held.now) }
{
    let mut out = [0u8; 6156];
    let answer = recorded::feed(
        engine.state,
        &mut engine.shadow,
        &mut engine.output,
        &mut engine.spectra,
        &mut engine.powers,
        held,
        &mut out,
    );
    // No call is refused (theorem `program` of recorded), and a refused one would change and write nothing.
    let Ok(recorded) = answer else {
        return Ok(());
    };
    engine.state = recorded.state;
    streams.write_all(&out[..recorded.written])
}

fn finish<R: Read, W: Write, E: Write>(
    streams: &mut Streams<R, W, E>,
    engine: &mut Engine,
) -> Result<(), ProgramError>
    ensures { engine.new ≡ engine_by (flush_of engine.old) }
{
    let mut out = [0u8; 1036];
    let answer = recorded::finish(
        engine.state,
        &mut engine.shadow,
        &mut engine.output,
        &mut engine.spectra,
        &mut engine.powers,
        &mut out,
    );
    // No call is refused (theorem `program` of recorded), and a refused one would change and write nothing.
    let Ok(recorded) = answer else {
        return Ok(());
    };
    engine.state = recorded.state;
    streams.write_all(&out[..recorded.written])
}
