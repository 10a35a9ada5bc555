// From f32 to f64, which is exact, and from f64 to f32, which rounds once.
ghost use Rattle.std.specs.Prelude.{◌≡◌, ◌^◌, ◌<◌, not, T, is_nan};
ghost use Rattle.std.specs.Float.Ieee.Nearest.{closest};
ghost use Rattle.numbers.specs.Narrowing.{narrow_of, kind_of, mag_of};
ghost use Rattle.numbers.specs.Promises.{Widen, Narrow, NarrowBits, NarrowTold, KindNumber, IsPlain, PlainSquares, Rounded};

use crate::bits::to_bits;
use crate::finite::is_finite;

// 2^-252 and 2^254, the squares of the ends of the range that has a short way.
const LOW_SQUARE: f64 = 1.3817869688151111e-76;

pub const HIGH_SQUARE: f64 = 2.894802230932905e76;

// 2^29 + 1: of the 53 digits of an f64 an f32 has 24, so 29 go.
const SPLITTER: f64 = 536870913.0;

// What narrowing did to a number: nothing, it rounded it, or it made a finite one infinite. A NaN or an infinity stays what it is.
#[derive(Debug, Clone, Copy, PartialEq, Eq)]
pub enum Kind {
    Exact,
    Rounded,
    Over,
}

// The kind as a number, for hosts that have no enum.
impl From<Kind> for u32 {
    ghost from_gives = { KindNumber };

    #[tactic(auto, unfolding(crate::specs::Narrowing::kind_number))]
    fn from(kind: Kind) -> u32 {
        match kind {
            Kind::Exact => 0,
            Kind::Rounded => 1,
            Kind::Over => 2,
        }
    }
}

#[derive(Debug, Clone, Copy, PartialEq)]
pub struct Narrowed {
    pub value: f32,
    pub kind: Kind,
}

// The same number. Nothing is rounded, so the logic has one value for both.
pub fn widen(x: f32) -> f64
    ensures { Widen x result }
{
    std::num::f32_to_f64_with_nan(x)
}

// The f32 nearest to x, IEEE 754's conversion: ties to even, overflow to an infinity.
pub fn narrow(x: f64) -> f32
    ensures { Narrow x result }
{
    if is_plain(x) {
        return rounded(x) as f32;
    }
    if x != x {
        return 0.0 / 0.0;
    }
    f32::from_bits(bits_by_fields(x))
}

// The bits of the f32 nearest to x. A NaN gives 7FC00000.
pub fn narrow_bits(x: f64) -> u32
    ensures { NarrowBits x result }
{
    to_bits(narrow(x))
}

// `narrow`, and what it did.
pub fn narrow_told(x: f64) -> Narrowed
    ensures { NarrowTold x result }
{
    let value = narrow(x);
    Narrowed {
        value,
        kind: kind_of(x, value),
    }
}

// The narrowed number is looked at first: where it is finite so was x.
fn kind_of(x: f64, value: f32) -> Kind
    requires { value ≡ narrow_of x }
    ensures { result ≡ kind_of x }
{
    if is_finite(value) {
        if x == widen(value) {
            return Kind::Exact;
        }
        return Kind::Rounded;
    }
    if is_finite(x) {
        return Kind::Over;
    }
    Kind::Exact
}

// Whether x is well inside the f32 normal range, so that it can go the short way, `rounded`: a size from 2^-126 up to 2^127.
pub fn is_plain(x: f64) -> bool
    ensures { IsPlain x result }
{
    let square = x * x;
    plain_squares(square, square)
}

// Whether every number is plain whose square is from `least` to `most`. By squares: they need no sign taken off, a NaN fails by itself, and
// of many numbers the least square and the sum of all can be made several at once. With `&`, so that no branch hinders that.
pub fn plain_squares(least: f64, most: f64) -> bool
    ensures { PlainSquares least most result }
{
    (LOW_SQUARE <= least) & (most < HIGH_SQUARE)
}

// x to the nearest number of 24 digits, at a tie to the even one, if x is plain or a zero: the f32 nearest to it, still as an f64. The
// product is x moved up by 29 digits and x itself, to the nearest number of 53 digits, so the last 29 of x are rounded off; what the
// product has more than x is taken off it again. No bits, no branch: the compiler does it to several numbers at once.
pub fn rounded(x: f64) -> f64
    ensures { Rounded x result }
{
    let product = x * SPLITTER;
    product - (product - x)
}

// The bits of the f32 nearest to x, by the fields of its own: for whatever is not plain.
fn bits_by_fields(x: f64) -> u32
    requires { T (not (is_nan x)) }
    ensures { NarrowBits x result }
{
    let bits = f64::to_bits(x);
    let sign = bits / 0x8000_0000_0000_0000 * 0x8000_0000;
    let exponent = bits % 0x8000_0000_0000_0000 / 0x10_0000_0000_0000;
    let digits = bits % 0x10_0000_0000_0000;
    (sign + magnitude(exponent, digits)) as u32
}

// The bits, without the sign's, of the f32 nearest to the f64 with this exponent's field and these
// digits. From 897 on the result is normal, and a carry out of the digits goes into the exponent.
// Below, the result is a count of 2^-149. From 1151 on it is the infinity.
fn magnitude(exponent: u64, digits: u64) -> u64
    requires { digits < 2 ^ 52 }
    ensures value { result ≡ mag_of exponent digits }
    ensures upper_bound { result < 2 ^ 31 }
{
    if exponent < 873 {
        return 0;
    }
    let m = 0x10_0000_0000_0000 + digits;
    if exponent < 897 {
        let unit = 1u64 << (926 - exponent);
        return half_even(m, unit);
    }
    if exponent < 1151 {
        return (exponent - 897) * 0x80_0000 + half_even(m, 0x2000_0000);
    }
    0x7f80_0000
}

// m / unit to the nearest whole number, and at a tie to the even one.
fn half_even(m: u64, unit: u64) -> u64
    requires unit_positive { 0 < unit }
    requires digits_53 { m < 2 ^ 53 }
    ensures { result ≡ closest m unit }
{
    let whole = m / unit;
    let rest = m % unit;
    let other = unit - rest;
    if rest < other {
        return whole;
    }
    if other < rest {
        return whole + 1;
    }
    whole + whole % 2
}
