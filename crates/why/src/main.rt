// Why the output filter did not move, from pairs: standard input as program `aec` reads it, lines to standard output. What comes between a
// read and a write is `watch`'s.
//
// Pairs are read by 256, so a block's reason is known as soon as its last pair is there. At the input's end an unfinished pair is dropped,
// and what waits is flushed. A read or a write that fails is told of on standard error, and ends the run; after a failed read what was read
// is still told of.
#![tactic(auto)]

use pipe::{ProgramError, Streams};
use std::io::{Read, Write};
use watch::Watch;

fn main(rt: HostRuntime) {
    let mut streams = Streams {
        program: "why",
        input: rt.stdin(),
        output: rt.stdout(),
        errors: rt.stderr(),
    };
    if let Err(error) = run(&mut streams) {
        streams.say(error);
    }
}

fn run<R: Read, W: Write, E: Write>(streams: &mut Streams<R, W, E>) -> Result<(), ProgramError> {
    let mut watch = Watch::new();
    let mut block = [0u8; 2048];
    // Nothing says that the input ends, and a proved loop has to: no run comes to so many blocks.
    for _ in 0..u64::MAX {
        let held = streams.fill(&mut block);
        watch.pairs(streams, &block[..held])?;
        if held < 2048 {
            break;
        }
    }
    watch.flush(streams)?;
    watch.finish(streams)
}
