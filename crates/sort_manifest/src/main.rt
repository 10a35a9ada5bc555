// Sorts the lines of a release manifest, from standard input to standard output (crate `manifest`).
//
// A manifest that is too large, and a read or a write that fails, get one line on standard error. Unless it is a write that fails,
// nothing is then written to standard output.
#![tactic(auto)]

mod input;

use input::{InputError, read_all};
use manifest::{MOST_BYTES, SortError};
use pipe::{say_why, write_all};
use std::fmt;
use std::io::{Read, Write};

// Why the sorted manifest was not written.
#[derive(Clone, Copy, Debug, PartialEq, Eq)]
enum Failure {
    Input(InputError),
    Sort(SortError),
    Write,
}

impl From<InputError> for Failure {
    fn from(e: InputError) -> Failure {
        Failure::Input(e)
    }
}

impl From<SortError> for Failure {
    fn from(e: SortError) -> Failure {
        Failure::Sort(e)
    }
}

impl fmt::Display for Failure {
    fn fmt<W: fmt::Write>(&self, f: &mut fmt::Formatter<W>) -> fmt::Result {
        match self {
            Failure::Input(e) => write!(f, "{e}"),
            Failure::Sort(e) => write!(f, "{e}"),
            Failure::Write => write!(f, "a write failed"),
        }
    }
}

fn main(rt: HostRuntime) {
    let mut text = [0u8; MOST_BYTES];
    if let Err(failure) = sort_input(&mut rt.stdin(), &mut rt.stdout(), &mut text) {
        say_why(&mut rt.stderr(), "sort_manifest", &failure);
    }
}

// Reads, sorts and writes.
fn sort_input<R: Read, W: Write>(
    input: &mut R,
    output: &mut W,
    text: &mut [u8],
) -> Result<(), Failure> {
    let held = read_all(input, text)?;
    put_sorted(output, &text[..held])
}

// The text has at most as many bytes as `out`, so that of the refusals only the one for the lines is left.
fn put_sorted<W: Write>(output: &mut W, text: &[u8]) -> Result<(), Failure> {
    let mut out = [0u8; MOST_BYTES];
    let written = manifest::sort(text, &mut out)?;
    if write_all(output, &out[..written]) {
        Ok(())
    } else {
        Err(Failure::Write)
    }
}
