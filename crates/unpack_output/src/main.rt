// The output samples of a capture of records.
#![tactic(auto)]

use pipe::Streams;
use record::Kind;

fn main(rt: HostRuntime) {
    let mut streams = Streams {
        program: "unpack",
        input: rt.stdin(),
        output: rt.stdout(),
        errors: rt.stderr(),
    };
    payloads::run(&mut streams, Kind::Output);
}
