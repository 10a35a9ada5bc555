// Why the output filter did not move, from a capture of records on standard input: the calls that it holds are made again, and lines go to
// standard output. Records of output are passed over. What comes between a record and a write is `watch`'s.
//
// A refusal, and a read or a write that fails, get one line on standard error and end the run; what came before a refusal or a failed read
// is told of.
#![tactic(auto)]

ghost use Rattle.std.specs.Prelude.{◌≡◌};
ghost use Rattle.std.specs.Result.{is_ok};
ghost use Rattle.record.specs.Kind.{number_of};
ghost use Rattle.why_records.specs.Called.{Called};

use pipe::{ProgramError, Streams};
use record::Kind;
use record_input::{Input, say};
use std::io::{Read, Write};
use watch::Watch;

fn main(rt: HostRuntime) {
    let mut streams = Streams {
        program: "why",
        input: rt.stdin(),
        output: rt.stdout(),
        errors: rt.stderr(),
    };
    if let Err(error) = run(&mut streams) {
        streams.say(error);
    }
}

fn run<R: Read, W: Write, E: Write>(streams: &mut Streams<R, W, E>) -> Result<(), ProgramError> {
    let mut watch = Watch::new();
    let mut input = Input::new();
    // Nothing says that the input ends, and a proved loop has to: no run comes to so many records.
    for _ in 0..u64::MAX {
        let record = match input.next_record(&mut streams.input) {
            Ok(Some(record)) => record,
            Ok(None) => break,
            Err(error) => {
                let finished = watch.finish(streams);
                if let Err(error) = finished {
                    streams.say(error);
                }
                say(streams, error);
                return Ok(());
            }
        };
        call(streams, &mut watch, record.kind, record.payload)?;
    }
    watch.finish(streams)
}

// The call that a record of this kind tells of.
fn call<R: Read, W: Write, E: Write>(
    streams: &mut Streams<R, W, E>,
    watch: &mut Watch,
    kind: Kind,
    payload: &[u8],
) -> Result<(), ProgramError>
    ensures called { Called (number_of kind) payload.now watch.old (is_ok result) watch.new }
    ensures input_stays { streams.new.input ≡ streams.old.input }
    ensures errors_stay { streams.new.errors ≡ streams.old.errors }
{
    match kind {
        Kind::Pairs => watch.pairs(streams, payload),
        Kind::Output => Ok(()),
        Kind::Flush => watch.flush(streams),
        Kind::Reset => watch.reset(streams),
    }
}
