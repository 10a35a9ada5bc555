// The run of a program that replays a list: its lines come in blocks, so that a list takes few calls of the system.
ghost use Rattle.std.specs.Prelude.{◌≡◌, ◌+◌, ◌*◌, ◌/◌, ◌^◌, ◌<◌, ◌↔◌, ◌==◌, if◌then◌else◌, ◌≤◌, length, nat_eq, not, option_map, unwrap_or};
ghost use Rattle.std.specs.List.{find, zip};

use crate::case::Case;
use crate::tally::Tally;
use std::io::{Read, Write};

/// What a program answers to a case, and what the list has there: of several numbers the first two that differ.
#[derive(Clone, Copy)]
pub struct Compared {
    pub got: u64,
    pub want: u64,
}

impl Compared {
    /// Of numbers side by side the first two that differ, or two zeros where none do.
    pub fn first(got: &[u64], want: &[u64]) -> Compared
        requires { length got.now ≡ length want.now }
        ensures same { (result.got ≡ result.want) ↔ (got.now ≡ want.now) }
        ensures which { result ≡ unwrap_or (option_map (λ p. record { got = p.0; want = p.1 }) (find (λ p. not (nat_eq p.0 p.1)) (zip got.now want.now))) (record { got = 0; want = 0 }) }
    {
        got.iter().zip(want).find(|(got, want)| got != want).map_or(
            Compared { got: 0, want: 0 },
            |(got, want)| Compared {
                got: *got,
                want: *want,
            },
        )
    }

    /// These two where they differ, and else the next ones.
    pub fn or(self, next: Compared) -> Compared
        ensures { result ≡ (if self.got == self.want then next else self) }
    {
        if self.got == self.want { next } else { self }
    }
}

/// A program that replays a list whose lines have `FIELDS` fields, with what it keeps from line to line.
pub trait Program<const FIELDS: usize> {
    /// The answer to a case, or nothing where it is none of the program's: no function has its letter, or a number in it is too large.
    fn answer(&mut self, case: &Case<FIELDS>) -> Option<Compared>;
}

/// Replays a list on standard input, and says how many answers differ.
pub fn replay<const FIELDS: usize, P: Program<FIELDS>, R: Read, W: Write>(
    name: &str,
    program: &mut P,
    input: &mut R,
    output: &mut W,
)
    requires { FIELDS ≤ 3854 }
{
    let size = 17 * FIELDS + 2;
    let mut block = [0u8; 65536];
    let whole = 65536 - 65536 % size;
    let mut tally = Tally::default();
    let mut left = 0;
    for _ in 0..u64::MAX {
        let held = pipe::fill(input, &mut block[..whole]).unwrap_or_else(|failed| failed.held);
        answer_all(program, output, &mut tally, &block[..held]);
        left = held % size;
        if held == 0 || left != 0 {
            break;
        }
    }
    tally.verdict(output, name, left);
}

// No line is passed over: each counts, as a case or as none.
fn answer_all<const FIELDS: usize, P: Program<FIELDS>, W: Write>(
    program: &mut P,
    output: &mut W,
    tally: &mut Tally,
    lines: &[u8],
)
    requires { FIELDS ≤ 3854 }
    ensures { tally.old.lines + length lines.now / (17 * FIELDS + 2) < 2 ^ 64 → tally.new.lines ≡ tally.old.lines + length lines.now / (17 * FIELDS + 2) }
{
    for line in lines.chunks_exact(17 * FIELDS + 2) {
        match answered(program, line) {
            Some(Compared { got, want }) => tally.judge(output, got, want),
            None => tally.refuse(output),
        }
    }
}

fn answered<const FIELDS: usize, P: Program<FIELDS>>(
    program: &mut P,
    line: &[u8],
) -> Option<Compared>
    requires { FIELDS ≤ 3854 }
{
    // The length is the same for all lines: said here, so that the compiler can unroll what goes over them.
    if line.len() != 17 * FIELDS + 2 {
        return None;
    }
    program.answer(&Case::parse(line)?)
}
