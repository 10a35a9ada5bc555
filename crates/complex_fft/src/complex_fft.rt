// `ComplexFft` for 256 points, in place over 512 numbers: the swap pass, eight stages of butterflies, and for the inverse 1/256.
// The functions that take a twiddle table are right for any table: their meaning is stated over it.
ghost use Rattle.std.specs.Prelude.{◌≡◌, true, ◌+◌, ◌*◌, ◌≤◌, ◌<◌};
ghost use Rattle.refusal.specs.Refusal.{number_in};
ghost use Rattle.complex_fft.specs.Calls.{complex_of};
ghost use Rattle.complex_fft.specs.ComplexFft.{swap_at, permuted, butterfly_at, twiddle_of, block_at, stage_at, stages, scaled, run_of};
ghost use Rattle.complex_fft.specs.Promises.{ComplexForward, ComplexInverse, Butterfly};

use crate::points::{get, put};
use crate::reversal::reversal_table;
use complex::Complex;
use refusal::Refusal;

// What a butterfly gives.
#[derive(Clone, Copy)]
pub struct Wings {
    pub upper: Complex,
    pub lower: Complex,
}

#[tactic(auto, unfolding(crate::specs::ComplexFft::swap_at))]
fn swap(s: &mut [f64; 512], i: usize, j: usize)
    requires { (i < 256) × (j < 256) }
    ensures { s.new ≡ swap_at s.old i j }
{
    let a = get(s, i);
    let b = get(s, j);
    put(s, i, b);
    put(s, j, a);
}

// Each pair once, from its lower place.
#[tactic(auto, using(laws::specs::Loops::loops), unfolding(crate::specs::ComplexFft::permuted, crate::specs::ComplexFft::swap_step, laws::specs::Choice::pick))]
fn permute(s: &mut [f64; 512], table: &[u8; 256])
    ensures { s.new ≡ permuted table.now s.old }
{
    for i in 0..256 {
        let j = usize::from(table[i]);
        if i < j {
            swap(s, i, j);
        }
    }
}

pub fn butterfly(u: Complex, v: Complex, twiddle: Complex) -> Wings
    ensures { Butterfly u v twiddle result }
{
    let turned = twiddle * v;
    Wings {
        upper: u + turned,
        lower: u - turned,
    }
}

// The butterfly of the numbers at i and half further on.
#[tactic(auto, unfolding(crate::specs::ComplexFft::butterfly_at))]
fn butterfly_at(s: &mut [f64; 512], i: usize, half: usize, twiddle: Complex)
    requires { i + half < 256 }
    ensures { s.new ≡ butterfly_at twiddle i half s.old }
{
    let wings = butterfly(get(s, i), get(s, i + half), twiddle);
    put(s, i, wings.upper);
    put(s, i + half, wings.lower);
}

// Twiddle r is entry 2r of the recombination table, conjugated for the inverse.
#[tactic(auto, unfolding(crate::specs::ComplexFft::twiddle_of, laws::specs::Choice::pick))]
pub fn twiddle_at(table: &[f64; 514], r: usize, inverse: bool) -> Complex
    requires { r ≤ 128 }
    ensures { result ≡ twiddle_of table.now inverse r }
{
    let z = get(table, 2 * r);
    if inverse { z.conj() } else { z }
}

// The butterflies of one block.
#[tactic(auto, using(crate::proofs::Spans::place, laws::specs::Loops::loops), unfolding(crate::specs::ComplexFft::block_at))]
fn block(
    s: &mut [f64; 512],
    table: &[f64; 514],
    base: usize,
    half: usize,
    stride: usize,
    inverse: bool,
)
    requires block_end { base + 2 * half ≤ 256 }
    requires stride_value { half * stride ≡ 128 }
    ensures { s.new ≡ block_at table.now inverse half stride base s.old }
{
    for j in 0..half {
        let twiddle = twiddle_at(table, j * stride, inverse);
        butterfly_at(s, base + j, half, twiddle);
    }
}

// The blocks of one stage.
#[tactic(auto, using(crate::proofs::Spans::room, laws::specs::Loops::loops), unfolding(crate::specs::ComplexFft::stage_at))]
fn stage(s: &mut [f64; 512], table: &[f64; 514], half: usize, stride: usize, inverse: bool)
    requires { half * stride ≡ 128 }
    ensures { s.new ≡ stage_at table.now inverse half stride s.old }
{
    for b in 0..stride {
        block(s, table, b * (2 * half), half, stride, inverse);
    }
}

// A stage of the inverse, by a call: where the compiler sees that a span is a power of two it takes the inverse's butterflies one by one,
// and not two at once.
#[inline(never)]
fn inverse_stage(s: &mut [f64; 512], table: &[f64; 514], half: usize, stride: usize)
    requires { half * stride ≡ 128 }
    ensures { s.new ≡ stage_at table.now true half stride s.old }
{
    stage(s, table, half, stride, true);
}

// The stages, the span doubling from 2 up to 256.
#[tactic(auto, using(crate::proofs::Spans::halves, laws::specs::Loops::loops), unfolding(crate::specs::ComplexFft::stages))]
fn all_stages(s: &mut [f64; 512], table: &[f64; 514], inverse: bool)
    ensures { s.new ≡ stages table.now inverse s.old }
{
    for k in 0..8u32 {
        if inverse {
            inverse_stage(s, table, 1 << k, 128 >> k);
        } else {
            stage(s, table, 1 << k, 128 >> k, false);
        }
    }
}

// The inverse carries the whole 1/256.
#[tactic(auto, using(laws::specs::Loops::loops), unfolding(crate::specs::ComplexFft::scaled))]
fn scale_all(s: &mut [f64; 512])
    ensures { s.new ≡ scaled s.old }
{
    for i in 0..256 {
        let z = get(s, i);
        put(s, i, z.scale(0.00390625));
    }
}

#[tactic(auto, unfolding(crate::specs::ComplexFft::run_of, laws::specs::Choice::pick))]
fn run(s: &mut [f64; 512], table: &[f64; 514], reversal: &[u8; 256], inverse: bool)
    ensures { s.new ≡ run_of table.now reversal.now inverse s.old }
{
    permute(s, reversal);
    all_stages(s, table, inverse);
    if inverse {
        scale_all(s);
    }
}

// 256 points, real part then imaginary, in place. Refused, with nothing written, where there are not 512 numbers. Inlined, so that either
// way has a loop of its own, in which the compiler knows the way.
#[inline(always)]
#[tactic(auto, using(laws::specs::Choice::choices), unfolding(crate::specs::Calls::complex_of, laws::specs::Choice::pick))]
fn transform(points: &mut [f64], inverse: bool) -> Result<(), Refusal>
    ensures { record { answer = number_in result; out = points.new } ≡ complex_of inverse points.old }
{
    let points: &mut [f64; 512] = points.as_mut_array().ok_or(Refusal::WrongLength)?;
    let table = trig::recombination();
    let reversal = reversal_table();
    run(points, &table, &reversal, inverse);
    Ok(())
}

pub fn complex_forward(points: &mut [f64]) -> Result<(), Refusal>
    ensures { ComplexForward points.old (number_in result) points.new }
{
    transform(points, false)
}

// The inverse, its 1/256 included.
pub fn complex_inverse(points: &mut [f64]) -> Result<(), Refusal>
    ensures { ComplexInverse points.old (number_in result) points.new }
{
    transform(points, true)
}
