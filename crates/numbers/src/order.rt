// Sizes, and the order of two numbers.
ghost use Rattle.numbers.specs.Promises.{Abs, Min, Max, Clamp, Lesser};

use crate::float::Float;

// |x|: the sign is cleared, of a zero and an infinity too.
pub fn abs<F: Float>(x: F) -> F
    ensures { Abs (F.float x) (F.float result) }
{
    x.abs()
}

pub fn abs32(s: f32) -> f32
    ensures { Abs s result }
{
    abs(s)
}

pub fn min(x: f64, y: f64) -> f64
    ensures { Min x y result }
{
    if x != x {
        return y;
    }
    if y < x { y } else { x }
}

pub fn max<F: Float>(x: F, y: F) -> F
    ensures { Max (F.float x) (F.float y) (F.float result) }
{
    x.max(y)
}

pub fn max32(a: f32, b: f32) -> f32
    ensures { Max a b result }
{
    max(a, b)
}

// x held between lo and hi. A NaN stays, and no lo or hi is refused: where hi is below lo, lo is tried first.
pub fn clamp(x: f64, lo: f64, hi: f64) -> f64
    ensures { Clamp x lo hi result }
{
    if x < lo {
        return lo;
    }
    if hi < x { hi } else { x }
}

// Of two counts, as of what there is and what there is room for.
pub fn lesser(a: usize, b: usize) -> usize
    ensures { Lesser a b result }
{
    a.min(b)
}
