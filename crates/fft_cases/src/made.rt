// The numbers that a case is run on. The list has their recipe, from which oracle/fft_cases.rs made the same ones.
//
// For a letter in lower case they are noise, but for a given number at one place. For one in upper case they are a tone: two numbers,
// then c * y - x after x and y, which is a sine whose step has the cosine c / 2.
use cases::{Bits, Case, Recipe};

/// By fields 0 to 4: the seed, the base, the mask, the place and its number; or c and the two numbers.
pub fn make(case: &Case<12>, out: &mut [f64]) {
    let [a, b, c, place, number, ..] = case.fields;
    if case.letter.is_ascii_uppercase() {
        tone(f64::from_word(a), f64::from_word(b), f64::from_word(c), out);
    } else {
        Recipe::of_words([a, b, c, place, number]).fill(out);
    }
}

fn tone(c: f64, first: f64, second: f64, out: &mut [f64]) {
    let (mut x, mut y) = (first, second);
    for number in out {
        *number = x;
        (x, y) = (y, c * y - x);
    }
}
