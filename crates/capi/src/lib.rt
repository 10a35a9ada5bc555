// The host library: what C and Rust programs call, by crate capi_c, which exports it. Each function hands its arguments to the proved one
// below it, and its promise is that function's own, so there is nothing to believe here but the names.
#![tactic(auto)]

mod record_calls;
mod tau_calls;

ghost use Rattle.numbers.specs.Promises.{Narrow, NarrowBits};
ghost use Rattle.complex_fft.specs.Promises.{ComplexForward, ComplexInverse};
ghost use Rattle.narrow_list.specs.Promises.{NarrowInto};
ghost use Rattle.fft.specs.Promises.{Forward, Inverse};
ghost use Rattle.capi.specs.Promises.{NarrowKind};
ghost use Rattle.rho.specs.Promises.{Create, Process, Flush, Reset};

use fft::Inverted;
pub use record_calls::{RecordRead, aspeyruni_record_read, aspeyruni_record_write};
use refusal::number;
use rho::{Answer, Started};
use rho_state::state::RhoCanceller;
pub use tau_calls::{
    TauAnswer, aspeyruni_tau_create, aspeyruni_tau_flush, aspeyruni_tau_process,
    aspeyruni_tau_reset,
};

pub fn aspeyruni_narrow(x: f64) -> f32
    ensures { Narrow x result }
{
    numbers::narrow(x)
}

pub fn aspeyruni_narrow_bits(x: f64) -> u32
    ensures { NarrowBits x result }
{
    numbers::narrow_bits(x)
}

// What narrowing does to x: 0 nothing, 1 it rounds it, 2 it makes a finite number infinite.
pub fn aspeyruni_narrow_kind(x: f64) -> u32
    ensures { NarrowKind x result }
{
    let told = numbers::narrow_told(x);
    u32::from(told.kind)
}

// xs number by number into the first places of out, as many as both have. How many of them went over.
pub fn aspeyruni_narrow_list(xs: &[f64], out: &mut [f32]) -> usize
    ensures { NarrowInto xs.now out.old result out.new }
{
    narrow_list::narrow_into(xs, out)
}

// 512 samples to 514 numbers, 257 bins real part then imaginary. 0, or 2 with nothing written where a length is wrong.
pub fn aspeyruni_forward(input: &[f32], out: &mut [f64]) -> u32
    ensures { Forward input.now out.old result out.new }
{
    number(&fft::forward(input, out))
}

// 514 numbers to 512 samples. 0, or 2 with nothing written where a length is wrong; and how many of the samples went over.
pub fn aspeyruni_inverse(spectrum: &[f64], out: &mut [f32]) -> Inverted
    ensures { Inverse spectrum.now out.old result out.new }
{
    Inverted::from(fft::inverse(spectrum, out))
}

// 256 points in place, 512 numbers. 0, or 2 with nothing written where the length is wrong.
pub fn aspeyruni_complex_forward(points: &mut [f64]) -> u32
    ensures { ComplexForward points.old result points.new }
{
    number(&complex_fft::complex_forward(points))
}

pub fn aspeyruni_complex_inverse(points: &mut [f64]) -> u32
    ensures { ComplexInverse points.old result points.new }
{
    number(&complex_fft::complex_inverse(points))
}

pub fn aspeyruni_rho_create(
    sample_rate: u32,
    tail_ms: u32,
    weights: &mut [f32],
    history: &mut [f32],
) -> Started
    ensures { Create sample_rate tail_ms weights.old history.old result weights.new history.new }
{
    Started::from(rho::create(sample_rate, tail_ms, weights, history))
}

pub fn aspeyruni_rho_process(
    s: RhoCanceller,
    weights: &mut [f32],
    history: &mut [f32],
    near: &[f32],
    far: &[f32],
    out: &mut [f32],
) -> Answer
    ensures { Process (record { state = s; weights = weights.old; history = history.old }) near.now far.now out.old result weights.new history.new out.new }
{
    let mut state = s;
    let delivered = rho::process(&mut state, weights, history, near, far, out);
    Answer::new(delivered, state)
}

pub fn aspeyruni_rho_flush(s: RhoCanceller, weights: &[f32], history: &[f32]) -> Answer
    ensures { Flush (record { state = s; weights = weights.now; history = history.now }) result }
{
    Answer::new(rho::flush(&s, weights, history), s)
}

pub fn aspeyruni_rho_reset(s: RhoCanceller, weights: &mut [f32], history: &mut [f32]) -> Started
    ensures { Reset (record { state = s; weights = weights.old; history = history.old }) result weights.new history.new }
{
    let mut state = s;
    let done = rho::reset(&mut state, weights, history);
    Started {
        refusal: number(&done),
        state,
    }
}
