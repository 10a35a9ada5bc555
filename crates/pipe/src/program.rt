// A program's streams, and what it says where one of them fails.
ghost use Rattle.std.specs.Prelude.{◌≡◌, ◌≤◌, length, take, OnOk};
ghost use Rattle.std.specs.Io.KnownBytes.{Appends, Consumes};

use crate::{fill, say_why};
use std::fmt;
use std::io::{Read, Write};

#[derive(Clone, Copy, Debug, PartialEq, Eq)]
pub enum ProgramError {
    ReadFailed,
    WriteFailed,
}

impl fmt::Display for ProgramError {
    fn fmt<W: fmt::Write>(&self, f: &mut fmt::Formatter<W>) -> fmt::Result {
        match self {
            ProgramError::ReadFailed => write!(f, "a read failed"),
            ProgramError::WriteFailed => write!(f, "a write failed"),
        }
    }
}

// A program's standard streams, and its name for what it says on the last of them.
#[derive(Drop)]
pub struct Streams<R, W, E> {
    pub program: &'static str,
    pub input: R,
    pub output: W,
    pub errors: E,
}

impl<R: Read, W: Write, E: Write> Streams<R, W, E> {
    // One read: how many bytes it put at the block's front. A read that fails is said, and gives none, as the input's end does.
    pub fn read(&mut self, block: &mut [u8]) -> usize
        ensures in_bounds { result ≤ length block.new }
        ensures bytes { Consumes (R.remaining self.old.input) (R.remaining self.new.input) (take result block.new) }
        ensures output_stays { self.new.output ≡ self.old.output }
    {
        match self.input.read(block) {
            Ok(held) => held,
            Err(_) => {
                self.say(ProgramError::ReadFailed);
                0
            }
        }
    }

    // Reads until the block is full or the input ends. A read that fails is said, and ends the input.
    pub fn fill(&mut self, block: &mut [u8]) -> usize
        ensures in_bounds { result ≤ length block.new }
        ensures bytes { Consumes (R.remaining self.old.input) (R.remaining self.new.input) (take result block.new) }
        ensures output_stays { self.new.output ≡ self.old.output }
    {
        match fill(&mut self.input, block) {
            Ok(held) => held,
            Err(failed) => {
                self.say(ProgramError::ReadFailed);
                failed.held
            }
        }
    }

    pub fn write_all(&mut self, bytes: &[u8]) -> Result<(), ProgramError>
        ensures appended { OnOk result (Appends (W.contents self.old.output) (W.contents self.new.output) bytes.now) }
        ensures input_stays { self.new.input ≡ self.old.input }
        ensures errors_stay { self.new.errors ≡ self.old.errors }
    {
        self.output
            .write_all(bytes)
            .map_err(|_| ProgramError::WriteFailed)
    }

    // The program's name and the error, in a line on standard error.
    pub fn say(&mut self, error: ProgramError)
        ensures input_stays { self.new.input ≡ self.old.input }
        ensures output_stays { self.new.output ≡ self.old.output }
    {
        say_why(&mut self.errors, self.program, &error);
    }
}
