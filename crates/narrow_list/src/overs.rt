// How many numbers of a list would go over, where nobody needs the narrowed ones.
ghost use Rattle.std.specs.Prelude.{◌≡◌, true, ℕ, ◌<◌, length, get_or, count_by};
ghost use Rattle.std.specs.Float.{nan, binary64};
ghost use Rattle.std.specs.Float.Ieee.{add, mul, lt};
ghost use Rattle.numbers.specs.Narrowing.{kind_of, high_square};
ghost use Rattle.narrow_list.specs.Lanes.{lane};
ghost use Rattle.narrow_list.specs.Overs.{is_over};
ghost use Rattle.narrow_list.specs.Promises.{OversScaled};
ghost use Rattle.narrow_list.specs.Short.{square_of};

use crate::{total, went_over};
use numbers::{HIGH_SQUARE, narrow};
use std::array;

// Of the numbers of xs times the scale. Where all are below 2^127 and the scale is at most 1, none does: that is asked first, since it takes
// no branch on any number.
pub fn overs_scaled(xs: &[f64], scale: f64) -> usize
    ensures { OversScaled xs.now scale result }
{
    let shrinks = (0.0 < scale) & (scale <= 1.0);
    if shrinks & all_small(xs) {
        return 0;
    }
    count_scaled(xs, scale)
}

// Whether all are below 2^127, for certain: groups of 32 by the sum of their squares, and no word on a list that has a part of a group.
fn all_small(xs: &[f64]) -> bool
    ensures { result ≡ true → (k : ℕ) → k < length xs.now → lt (square_of (get_or xs.now k nan)) high_square ≡ true }
{
    let (groups, rest) = xs.as_chunks::<32>();
    let mut small = true;
    for group in groups {
        small &= total(&square_sums(group)) < HIGH_SQUARE;
    }
    small & rest.is_empty()
}

// Eight sums of four squares. Not by way of the squares: they are not needed here.
fn square_sums(xs: &[f64]) -> [f64; 8]
    requires { length xs.now ≡ 32 }
    ensures { (k : ℕ) → k < 8 → get_or result k nan ≡ lane (add binary64) (λ j. square_of (get_or xs.now j nan)) k }
{
    array::from_fn(|k| {
        let (a, b, c, d) = (xs[k], xs[k + 8], xs[k + 16], xs[k + 24]);
        (a * a + b * b) + (c * c + d * d)
    })
}

fn count_scaled(xs: &[f64], scale: f64) -> usize
    ensures { result ≡ count_by (λ x. is_over (kind_of (mul binary64 x scale))) xs.now }
{
    xs.iter().filter(|x| goes_over(**x * scale)).count()
}

fn goes_over(x: f64) -> bool
    ensures { result ≡ is_over (kind_of x) }
{
    went_over(x, narrow(x))
}
