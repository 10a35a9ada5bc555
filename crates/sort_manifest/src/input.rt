// Reading.
ghost use Rattle.std.specs.Prelude.{◌≤◌, length, IfOk};

use manifest::MOST_BYTES;
use pipe::read_some;
use std::fmt;
use std::io::Read;

// Why there is no input to sort.
#[derive(Clone, Copy, Debug, PartialEq, Eq)]
pub enum InputError {
    TooLong,
    Failed,
}

impl fmt::Display for InputError {
    fn fmt<W: fmt::Write>(&self, f: &mut fmt::Formatter<W>) -> fmt::Result {
        match self {
            InputError::TooLong => write!(f, "the manifest has more than {MOST_BYTES} bytes"),
            InputError::Failed => write!(f, "a read failed"),
        }
    }
}

// Reads until the input ends, and counts its bytes. A read may give a part only, and where the buffer is full one byte more tells whether
// that was all.
pub fn read_all<R: Read>(input: &mut R, text: &mut [u8]) -> Result<usize, InputError>
    ensures { IfOk result (λ held. held ≤ length text.old) }
{
    let mut held = 0usize;
    while held < text.len() {
        let more = read_some(input, &mut text[held..]).ok_or(InputError::Failed)?;
        if more == 0 {
            return Ok(held);
        }
        held += more;
    }
    match read_some(input, &mut [0u8]).ok_or(InputError::Failed)? {
        0 => Ok(held),
        _ => Err(InputError::TooLong),
    }
}
