// Finite or not.
ghost use Rattle.numbers.specs.Promises.{IsFinite, FiniteOrZero};

use crate::float::Float;

// An infinity less itself is a NaN, and so is a NaN: one operation and one test, which the compiler does to several numbers at once.
pub fn is_finite<F: Float>(x: F) -> bool
    ensures { IsFinite (F.float x) result }
{
    x.is_finite()
}

pub fn is_finite32(x: f32) -> bool
    ensures { IsFinite x result }
{
    is_finite(x)
}

// What an engine reads a sample as: a non-finite one as +0.0.
pub fn finite_or_zero(x: f32) -> f32
    ensures { FiniteOrZero x result }
{
    if is_finite(x) {
        return x;
    }
    0.0
}
