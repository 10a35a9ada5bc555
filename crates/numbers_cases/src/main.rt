// Runs the functions of `numbers` and `narrow_list` on a list of cases, and compares with the answers that
// Rust gave (oracle/numbers_cases.rs).
//
// A line has four fields: operands a, b, c and the answer, each as the bits of a number. An operand that
// is not used is 0, and a pattern of 32 bits stands in the low half. The letters are those in `answer`.
// Every NaN is the same answer: `to_bits` and `to_bits32` have one pattern for all, and so has the list.
#![tactic(auto)]

use cases::{Bits, Case, Compared, Program, halves, joined};

// What runs an operation: nothing is kept from line to line.
#[derive(Drop)]
struct Operations;

impl Program<4> for Operations {
    fn answer(&mut self, case: &Case<4>) -> Option<Compared> {
        let [a, b, c, want] = case.fields;
        let got = answer(case.letter, a, b, c)?;
        Some(Compared { got, want })
    }
}

fn main(rt: HostRuntime) {
    cases::replay(
        "numbers_cases",
        &mut Operations,
        &mut rt.stdin(),
        &mut rt.stdout(),
    );
}

// What the operation of this letter gives, by its bits. The operands are x, y, z, or u, v where they are of 32 bits.
fn answer(letter: u8, a: u64, b: u64, c: u64) -> Option<u64> {
    let x = f64::from_word(a);
    let y = f64::from_word(b);
    let z = f64::from_word(c);
    let u = f32::from_word(a);
    let v = f32::from_word(b);
    let answer = match letter {
        b'n' => numbers::narrow(x).to_word(),
        b'N' => u64::from(numbers::narrow_bits(x)),
        b't' => told(x),
        b'l' => listed(x, b, z),
        b'L' => counted(x, b, z),
        b'w' => numbers::widen(u).to_word(),
        b'a' => numbers::abs(x).to_word(),
        b'A' => numbers::abs32(u).to_word(),
        b'i' => numbers::min(x, y).to_word(),
        b'x' => numbers::max(x, y).to_word(),
        b'X' => numbers::max32(u, v).to_word(),
        b'c' => numbers::clamp(x, y, z).to_word(),
        b'f' => u64::from(numbers::is_finite(x)),
        b'F' => u64::from(numbers::is_finite32(u)),
        b'z' => numbers::finite_or_zero(u).to_word(),
        b'b' => x.to_word(),
        b'B' => u.to_word(),
        _ => return None,
    };
    Some(answer)
}

// A list of 33 numbers, one more than are narrowed at once: z but for x at a place. Its answer there, and in the upper half the one at
// the next place, or at the first after the last.
fn listed(x: f64, place: u64, z: f64) -> u64 {
    let at = (place % 33) as usize;
    let next = (at + 1) % 33;
    let mut list = [z; 33];
    list[at] = x;
    let mut out = [0.0f32; 33];
    narrow_list::narrow_into(&list, &mut out);
    joined(out[next].to_word(), out[at].to_word())
}

// How many of such a list went over, narrowed into as much room as the upper half of `place` says.
fn counted(x: f64, place: u64, z: f64) -> u64 {
    let (room, at) = halves(place);
    let room = (room % 34) as usize;
    let mut list = [z; 33];
    list[(at % 33) as usize] = x;
    let mut out = [0.0f32; 33];
    narrow_list::narrow_into(&list, &mut out[..room]) as u64
}

// The narrowed number, and in the upper half what narrowing did.
fn told(x: f64) -> u64 {
    let narrowed = numbers::narrow_told(x);
    joined(
        u64::from(u32::from(narrowed.kind)),
        narrowed.value.to_word(),
    )
}
