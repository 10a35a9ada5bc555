// Shows what a capture of records holds, from standard input to standard output: a line a record, with its number from 0, the place of its
// first byte, and what it is.
//
// A refusal, and a read or a write that fails, get one line on standard error and end the run.
#![tactic(auto)]

ghost use Rattle.std.specs.Prelude.{◌++◌, ◌+◌, ◌≤◌, length, take};
ghost use Rattle.record.specs.Kind.{number_of};
ghost use Rattle.records.specs.Line.{What, Line};
ghost use Rattle.text.specs.Text.{Appended};

use pipe::{ProgramError, Streams};
use record::Kind;
use record_input::{Input, RecordsError, say};
use std::io::{Read, Write};
use text::{put, put_decimal};

fn main(rt: HostRuntime) {
    let mut streams = Streams {
        program: "records",
        input: rt.stdin(),
        output: rt.stdout(),
        errors: rt.stderr(),
    };
    if let Err(error) = run(&mut streams) {
        say(&mut streams, error);
    }
}

fn run<R: Read, W: Write, E: Write>(streams: &mut Streams<R, W, E>) -> Result<(), RecordsError> {
    let mut input = Input::new();
    // The largest number is not counted up: no run comes to so many records.
    for number in 0..u64::MAX {
        let Some(record) = input.next_record(&mut streams.input)? else {
            return Ok(());
        };
        show(
            streams,
            number,
            record.place,
            record.kind,
            record.payload.len(),
        )?;
    }
    Ok(())
}

fn show<R: Read, W: Write, E: Write>(
    streams: &mut Streams<R, W, E>,
    number: u64,
    place: u64,
    kind: Kind,
    size: usize,
) -> Result<(), ProgramError> {
    let mut line = [0u8; 80];
    let end = put_line(number, place, kind, size, &mut line);
    streams.write_all(&line[..end])
}

// The line of a record whose payload has `size` bytes. Two numbers, what the record is, a blank and the line's end are 70 bytes at most.
fn put_line(number: u64, place: u64, kind: Kind, size: usize, line: &mut [u8]) -> usize
    requires { 70 ≤ length line.old }
    ensures upper_bound { result ≤ 70 }
    ensures line { Line number place (number_of kind) size (take result line.new) }
{
    let counted = put_decimal(number, 0, line);
    let blank = put(b" ", counted, line);
    let placed = put_decimal(place, blank, line);
    let named = put_what(kind, size, placed, line);
    put(b"\n", named, line)
}

fn put_what(kind: Kind, size: usize, at: usize, line: &mut [u8]) -> usize
    requires { at + 28 ≤ length line.old }
    ensures upper_bound { result ≤ at + 28 }
    ensures what { What (number_of kind) size (take at line.old) (take result line.new) }
{
    match kind {
        Kind::Pairs => put_counted(b" pairs ", size / 8, at, line),
        Kind::Output => put_counted(b" output ", size / 4, at, line),
        Kind::Flush => put(b" flush", at, line),
        Kind::Reset => put(b" reset", at, line),
    }
}

// A word and how many there are.
fn put_counted(word: &[u8], count: usize, at: usize, line: &mut [u8]) -> usize
    requires { at + (length word.now + 20) ≤ length line.old }
    ensures upper_bound { result ≤ at + (length word.now + 20) }
    ensures counted { Appended count (take at line.old ++ word.now) (take result line.new) }
{
    let end = put(word, at, line);
    put_decimal(count as u64, end, line)
}
