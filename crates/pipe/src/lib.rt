// Standard input by blocks, standard output, and a program's word on standard error: over any reader and writers.
#![tactic(auto)]

mod program;

ghost use Rattle.std.specs.Prelude.{◌≡◌, ◌≤◌, true, length, take, IfSome, IfNone};
ghost use Rattle.std.specs.Io.KnownBytes.{Appends, Consumes, Keeps};
ghost use Rattle.pipe.specs.Held.{held_of};
ghost use Rattle.pipe.specs.Said.{line_of};

use arrayvec::ArrayString;
pub use program::{ProgramError, Streams};
use std::fmt::{Display, Write as _};
use std::io::{Read, Write};

// A read failed, and before it the block was given so many bytes.
#[derive(Clone, Copy, Debug, PartialEq, Eq)]
pub struct ReadFailed {
    pub held: usize,
}

// Reads until the block is full or the input ends, and tells how many bytes the block then holds: a read of a pipe may give a part only.
pub fn fill<R: Read>(input: &mut R, block: &mut [u8]) -> Result<usize, ReadFailed>
    ensures in_bounds { held_of result ≤ length block.new }
    ensures bytes { Consumes (R.remaining input.old) (R.remaining input.new) (take (held_of result) block.new) }
{
    let mut held = 0;
    while held < block.len() {
        match input.read(&mut block[held..]) {
            Ok(0) => break,
            Ok(more) => held += more,
            Err(_) => return Err(ReadFailed { held }),
        }
    }
    Ok(held)
}

// One read: how many bytes it put at the block's front, none only where the input has ended or the block has no room; or nothing, where it
// failed.
pub fn read_some<R: Read>(input: &mut R, block: &mut [u8]) -> Option<usize>
    ensures in_bounds { IfSome result (λ n. n ≤ length block.new) }
    ensures bytes { IfSome result (λ n. Consumes (R.remaining input.old) (R.remaining input.new) (take n block.new)) }
    ensures failed { IfNone result (Keeps (R.remaining input.old) (R.remaining input.new)) }
{
    input.read(block).ok()
}

// Whether all the bytes were written.
pub fn write_all<W: Write>(output: &mut W, bytes: &[u8]) -> bool
    ensures { result ≡ true → Appends (W.contents output.old) (W.contents output.new) bytes.now }
{
    output.write_all(bytes).is_ok()
}

// Reads until the block is full, the input ends or a read fails, and tells how many bytes the block then holds.
pub fn read_full<R: Read>(input: &mut R, block: &mut [u8]) -> usize
    ensures in_bounds { result ≤ length block.new }
    ensures bytes { Consumes (R.remaining input.old) (R.remaining input.new) (take result block.new) }
{
    match fill(input, block) {
        Ok(held) => held,
        Err(failed) => failed.held,
    }
}

// Says why something failed, behind the program's name: a line on standard error, in one write. Only a line of more than 128 bytes goes out
// in parts. Whether all of it was written.
pub fn say_why<E: Write, D: Display>(errors: &mut E, program: &str, why: &D) -> bool
    ensures { result ≡ true → IfSome (D.output why.now) (λ text. Appends (E.contents errors.old) (E.contents errors.new) (line_of program.now text)) }
{
    let mut line = ArrayString::<128>::new();
    if writeln!(line, "{program}: {why}").is_ok() {
        return write_all(errors, line.as_str().as_bytes());
    }
    writeln!(errors, "{program}: {why}").is_ok()
}

// The program's name, and what it has to say.
pub fn complain<W: Write>(errors: &mut W, program: &[u8], line: &[u8]) {
    write_all(errors, program);
    write_all(errors, line);
}
