// Runs the transform and its table on a list of cases, and compares with the answers that the Rust gave (oracle/fft_cases.rs).
//
// A line has twelve fields. Where the letter is of a transform (transforms.rt):
//
//     0 to 4    how the numbers are made that it is run on (made.rt)
//     5, 6      the length of what it reads, and of what it writes
//     7         a place in what it writes
//     8         its answer, 0 or the number of a refusal; of an inverse in the upper half how many of its 512 samples went over
//     9         the hash of what then stands there (`cases::hash`)
//     10, 11    the numbers at that place and the next, for a reader to look at
//
// For `a` the last two are det_cos and det_sin of the angle in field 0, and for `t` the table's numbers at the place in field 7
// and the next. A field without a use is 0. Every number is written as the bits of an f64, samples too.
#![tactic(auto)]

mod made;
mod transforms;

use cases::{Bits, Case, Compared, Program, hash};
use made::make;
use transforms::run;

// The transform and its table: nothing is kept from line to line.
#[derive(Drop)]
struct Functions;

impl Program<12> for Functions {
    fn answer(&mut self, case: &Case<12>) -> Option<Compared> {
        let got = answered(case)?;
        Some(Compared::first(&got, &case.fields[8..]))
    }
}

fn main(rt: HostRuntime) {
    cases::replay(
        "fft_cases",
        &mut Functions,
        &mut rt.stdin(),
        &mut rt.stdout(),
    );
}

// The last four fields, or nothing where no function has the letter, or a length or a place is too large.
fn answered(case: &Case<12>) -> Option<[u64; 4]> {
    match case.letter {
        b'a' => {
            let angle = f64::from_word(case.fields[0]);
            Some([
                0,
                0,
                trig::det_cos(angle).to_word(),
                trig::det_sin(angle).to_word(),
            ])
        }
        b't' => entry(case.fields[7]),
        _ => transformed(case),
    }
}

// The table's. A function of its own, since a line of another letter would pay for the table too.
fn entry(place: u64) -> Option<[u64; 4]> {
    let (first, second) = pair(&trig::recombination(), place)?;
    Some([0, 0, first, second])
}

// The numbers at a place and the next.
fn pair(numbers: &[f64], at: u64) -> Option<(u64, u64)> {
    let at = at as usize;
    let first = numbers.get(at)?;
    let second = numbers.get(at.checked_add(1)?)?;
    Some((first.to_word(), second.to_word()))
}

fn transformed(case: &Case<12>) -> Option<[u64; 4]> {
    let given = case.fields[5] as usize;
    let room = case.fields[6] as usize;
    let place = case.fields[7];
    if 1024 < given || 1024 < room || 1023 <= place {
        return None;
    }
    let mut buffer = [0.0; 1024];
    make(case, &mut buffer);
    let number = run(case.letter, &mut buffer, given, room)?;
    let (first, second) = pair(&buffer, place)?;
    Some([number, hash(&buffer[..room]), first, second])
}
