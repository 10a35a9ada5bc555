// Why a run over the records of a capture ends early.
use pipe::{ProgramError, Streams};
use refusal::Refusal;
use std::fmt;
use std::io::Write;

#[derive(Clone, Copy, Debug, PartialEq, Eq)]
pub enum RecordsError {
    // What begins at this place of the input is no record.
    Refused { refusal: Refusal, place: u64 },
    Failed(ProgramError),
}

impl From<ProgramError> for RecordsError {
    fn from(error: ProgramError) -> RecordsError {
        RecordsError::Failed(error)
    }
}

impl fmt::Display for RecordsError {
    fn fmt<W: fmt::Write>(&self, f: &mut fmt::Formatter<W>) -> fmt::Result {
        match self {
            RecordsError::Refused { refusal, place } => {
                let number = u32::from(*refusal);
                let reason = reason(*refusal);
                write!(f, "refusal {number} at byte {place}: {reason}")
            }
            RecordsError::Failed(error) => write!(f, "{error}"),
        }
    }
}

fn reason(refusal: Refusal) -> &'static str {
    match refusal {
        Refusal::NoMark => "not the mark of a record",
        Refusal::BadHeader => "a header that no record has",
        _ => "the input ends inside a record",
    }
}

// The program's name and the error, in a line on standard error.
pub fn say<R, W, E: Write>(streams: &mut Streams<R, W, E>, error: RecordsError) {
    pipe::say_why(&mut streams.errors, streams.program, &error);
}
