// The same program, run on three pairs, document 01's own case: a crate of its own, since each has one `stdin` and one `stdout`.
#![tactic(auto)]

use pipe::Streams;

fn main(rt: HostRuntime) {
    stream::run(&mut Streams {
        program: "aec",
        input: rt.stdin(),
        output: rt.stdout(),
        errors: rt.stderr(),
    });
}
