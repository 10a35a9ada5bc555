// The library that C and Rust programs link: what crate capi gives, under C's calling convention. Each function here is the one of its name
// there, with its very promise, so there is nothing to believe here but the names.
#![tactic(auto)]

mod record_calls;
mod tau_calls;

ghost use Rattle.numbers.specs.Promises.{Narrow, NarrowBits};
ghost use Rattle.complex_fft.specs.Promises.{ComplexForward, ComplexInverse};
ghost use Rattle.narrow_list.specs.Promises.{NarrowInto};
ghost use Rattle.fft.specs.Promises.{Forward, Inverse};
ghost use Rattle.capi.specs.Promises.{NarrowKind};
ghost use Rattle.rho.specs.Promises.{Create, Process, Flush, Reset};

use fft::Inverted;
pub use record_calls::{aspeyruni_record_read, aspeyruni_record_write};
use rho::{Answer, Started};
use rho_state::state::RhoCanceller;
pub use tau_calls::{
    aspeyruni_tau_create, aspeyruni_tau_flush, aspeyruni_tau_process, aspeyruni_tau_reset,
};

#[unsafe(no_mangle)]
pub extern "C" fn aspeyruni_narrow(x: f64) -> f32
    ensures { Narrow x result }
{
    capi::aspeyruni_narrow(x)
}

#[unsafe(no_mangle)]
pub extern "C" fn aspeyruni_narrow_bits(x: f64) -> u32
    ensures { NarrowBits x result }
{
    capi::aspeyruni_narrow_bits(x)
}

// What narrowing does to x: 0 nothing, 1 it rounds it, 2 it makes a finite number infinite.
#[unsafe(no_mangle)]
pub extern "C" fn aspeyruni_narrow_kind(x: f64) -> u32
    ensures { NarrowKind x result }
{
    capi::aspeyruni_narrow_kind(x)
}

// xs number by number into the first places of out, as many as both have. How many of them went over.
#[unsafe(no_mangle)]
pub extern "C" fn aspeyruni_narrow_list(xs: &[f64], out: &mut [f32]) -> usize
    ensures { NarrowInto xs.now out.old result out.new }
{
    capi::aspeyruni_narrow_list(xs, out)
}

// 512 samples to 514 numbers, 257 bins real part then imaginary. 0, or 2 with nothing written where a length is wrong.
#[unsafe(no_mangle)]
pub extern "C" fn aspeyruni_forward(input: &[f32], out: &mut [f64]) -> u32
    ensures { Forward input.now out.old result out.new }
{
    capi::aspeyruni_forward(input, out)
}

// 514 numbers to 512 samples. 0, or 2 with nothing written where a length is wrong; and how many of the samples went over.
#[unsafe(no_mangle)]
pub extern "C" fn aspeyruni_inverse(spectrum: &[f64], out: &mut [f32]) -> Inverted
    ensures { Inverse spectrum.now out.old result out.new }
{
    capi::aspeyruni_inverse(spectrum, out)
}

// 256 points in place, 512 numbers. 0, or 2 with nothing written where the length is wrong.
#[unsafe(no_mangle)]
pub extern "C" fn aspeyruni_complex_forward(points: &mut [f64]) -> u32
    ensures { ComplexForward points.old result points.new }
{
    capi::aspeyruni_complex_forward(points)
}

#[unsafe(no_mangle)]
pub extern "C" fn aspeyruni_complex_inverse(points: &mut [f64]) -> u32
    ensures { ComplexInverse points.old result points.new }
{
    capi::aspeyruni_complex_inverse(points)
}

#[unsafe(no_mangle)]
pub extern "C" fn aspeyruni_rho_create(
    sample_rate: u32,
    tail_ms: u32,
    weights: &mut [f32],
    history: &mut [f32],
) -> Started
    ensures { Create sample_rate tail_ms weights.old history.old result weights.new history.new }
{
    capi::aspeyruni_rho_create(sample_rate, tail_ms, weights, history)
}

#[unsafe(no_mangle)]
pub extern "C" fn aspeyruni_rho_process(
    s: RhoCanceller,
    weights: &mut [f32],
    history: &mut [f32],
    near: &[f32],
    far: &[f32],
    out: &mut [f32],
) -> Answer
    ensures { Process (record { state = s; weights = weights.old; history = history.old }) near.now far.now out.old result weights.new history.new out.new }
{
    capi::aspeyruni_rho_process(s, weights, history, near, far, out)
}

#[unsafe(no_mangle)]
pub extern "C" fn aspeyruni_rho_flush(s: RhoCanceller, weights: &[f32], history: &[f32]) -> Answer
    ensures { Flush (record { state = s; weights = weights.now; history = history.now }) result }
{
    capi::aspeyruni_rho_flush(s, weights, history)
}

#[unsafe(no_mangle)]
pub extern "C" fn aspeyruni_rho_reset(
    s: RhoCanceller,
    weights: &mut [f32],
    history: &mut [f32],
) -> Started
    ensures { Reset (record { state = s; weights = weights.old; history = history.old }) result weights.new history.new }
{
    capi::aspeyruni_rho_reset(s, weights, history)
}
