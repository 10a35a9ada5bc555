// The echo canceller on standard input and output (crate `stream`). Its file `stdin` is a capture with echo, and `stdout` what the Rust
// makes of it (oracle/capture.rs).
#![tactic(auto)]

use pipe::Streams;

fn main(rt: HostRuntime) {
    stream::run(&mut Streams {
        program: "aec",
        input: rt.stdin(),
        output: rt.stdout(),
        errors: rt.stderr(),
    });
}
