// The program's reading and writing: pairs from standard input, TauCanceller with four partitions and suppression, its samples to standard
// output. What comes between a read and a write is `capture`'s.
//
// A read may end inside a pair: what is left of it, fewer than eight bytes, waits at the block's start for the next. At the input's
// end an unfinished pair is dropped, and the flush comes last. A read or a write that fails is told of on standard error, and ends
// the run; after a failed read what was read is still flushed. No call is refused (theorem `program` of capture).
#![tactic(auto)]

ghost use Rattle.std.specs.Prelude.{◌≡◌, ◌<◌, ◌≤◌, length, take, IfOk};
ghost use Rattle.capture.specs.Program.{turn_of, ended_of, left_by};

use capture::Engine;
use pipe::{ProgramError, Streams};
use std::io::{Read, Write};

pub fn run<R: Read, W: Write, E: Write>(streams: &mut Streams<R, W, E>) {
    if let Err(error) = drive(streams) {
        streams.say(error);
    }
}

fn drive<R: Read, W: Write, E: Write>(streams: &mut Streams<R, W, E>) -> Result<(), ProgramError> {
    let mut engine = Engine::new();
    let mut block = [0u8; 32776];
    let mut left = 0;
    // Nothing says that the input ends, and a proved loop has to: no run comes to so many reads. Programs `pack` and `why` have such a
    // loop each, with another read, turn and end: one for all would be as long, with clauses on a closure.
    for _ in 0..u64::MAX {
        let more = streams.read(&mut block[left..left + 32768]);
        if more == 0 {
            break;
        }
        left = turn(streams, &mut engine, left + more, &mut block)?;
    }
    finish(streams, &mut engine)
}

// The pairs among the bytes held, and what they deliver. How many bytes then wait, fewer than eight. All but the writing is said.
fn turn<R: Read, W: Write, E: Write>(
    streams: &mut Streams<R, W, E>,
    engine: &mut Engine,
    held: usize,
    block: &mut [u8],
) -> Result<usize, ProgramError>
    requires { held ≤ length block.old }
    ensures engine_after { engine.new ≡ (turn_of engine.old (take held block.old)).engine }
    ensures left_bound { IfOk result (λ left. left < 8) }
    ensures rest { IfOk result (λ left. take left block.new ≡ (turn_of engine.old (take held block.old)).rest) }
{
    let mut bytes = [0u8; 16384];
    let answer = engine.feed(&block[..held], &mut bytes);
    wire::keep_rest(held, block);
    streams.write_all(&bytes[..4 * answer.delivered])?;
    Ok(held % 8)
}

// The flush, into a buffer of its own: 256 samples are more than can wait.
fn finish<R: Read, W: Write, E: Write>(
    streams: &mut Streams<R, W, E>,
    engine: &mut Engine,
) -> Result<(), ProgramError>
    ensures { engine.new ≡ left_by (ended_of engine.old) }
{
    let mut bytes = [0u8; 1024];
    let answer = engine.finish(&mut bytes);
    streams.write_all(&bytes[..4 * answer.delivered])
}
