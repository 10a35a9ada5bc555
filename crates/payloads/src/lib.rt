// The payloads of one kind in a capture of records, from standard input to standard output, their bytes as they are.
//
// A refusal, and a read or a write that fails, get one line on standard error and end the run; what came before is written.
#![tactic(auto)]

use pipe::Streams;
use record::Kind;
use record_input::{Input, RecordsError, say};
use std::io::{Read, Write};

pub fn run<R: Read, W: Write, E: Write>(streams: &mut Streams<R, W, E>, kind: Kind) {
    if let Err(error) = copy(streams, kind) {
        say(streams, error);
    }
}

fn copy<R: Read, W: Write, E: Write>(
    streams: &mut Streams<R, W, E>,
    kind: Kind,
) -> Result<(), RecordsError> {
    let mut input = Input::new();
    // Nothing says that the input ends, and a proved loop has to: no run comes to so many records.
    for _ in 0..u64::MAX {
        let Some(record) = input.next_record(&mut streams.input)? else {
            return Ok(());
        };
        if record.kind == kind {
            streams.write_all(record.payload)?;
        }
    }
    Ok(())
}
