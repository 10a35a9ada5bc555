// Number helpers: what `f32` and `f64` have as methods in Rust, with contracts in the logic's account
// of IEEE 754 (lib.Ieee). No public function has a `requires`. A name without a width is of `f64`.
#![tactic(auto)]

mod bits;
mod finite;
mod float;
mod narrowing;
mod order;

pub use bits::{from_bits, from_bits32, to_bits, to_bits32};
pub use finite::{finite_or_zero, is_finite, is_finite32};
pub use float::Float;
pub use narrowing::{
    HIGH_SQUARE, Kind, Narrowed, is_plain, narrow, narrow_bits, narrow_told, plain_squares,
    rounded, widen,
};
pub use order::{abs, abs32, clamp, lesser, max, max32, min};
