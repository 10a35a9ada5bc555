// Steps 2 and 3: the estimates and the errors.
ghost use Rattle.std.specs.Prelude.{◌≡◌, ◌*◌, length};
ghost use Rattle.tau_spectra.specs.FarRing.{ring_in};
ghost use Rattle.tau_filter.specs.Left.{shadowed_of, estimated_of};
ghost use Rattle.tau_filter.specs.Filter.{added, echo_of, errors_of, bad_to, shadowed, estimated};

use complex::Complex;
use tau_clears::clears::{diverge, diverge_shadow};
use tau_spectra::bins::{get, put};
use tau_spectra::ring::FarRing;
use tau_spectra::transform::Transform;
use tau_state::state::{Paths, Suppressor};

// One partition's products, bin by bin onto the sum.
fn multiply_add(acc: &mut [f64; 514], w: &[f64], x: &[f64])
    requires w_len { length w.now ≡ 514 }
    requires x_len { length x.now ≡ 514 }
    ensures { acc.new ≡ added w.now x.now 257 acc.old }
{
    for k in 0..257 {
        let z = get(acc, k) + get(w, k) * get(x, k);
        put(acc, k, z);
    }
}

pub(crate) fn echo(weights: &[f64], ring: &FarRing, acc: &mut [f64; 514])
    requires { length weights.now ≡ 514 * ring.now.partitions }
    ensures { acc.new ≡ echo_of weights.now (ring_in ring.now) }
{
    let zero = Complex::ZERO;
    *acc = [zero.re; 514];
    for p in 0..ring.partitions {
        let start = 514 * p;
        let end = start + 514;
        multiply_add(acc, &weights[start..end], ring.met_by(p));
    }
}

// The errors, and whether one of them is not finite.
pub(crate) fn errors(near: &[f32; 256], estimate: &[f32; 256], error: &mut [f32; 256]) -> bool
    ensures errors { error.new ≡ errors_of near.now estimate.now }
    ensures bad { result ≡ bad_to near.now estimate.now 256 }
{
    let mut bad = false;
    for i in 0..256 {
        let e = near[i] - estimate[i];
        error[i] = e;
        bad = bad | !numbers::is_finite32(e);
    }
    bad
}

// Whether an error was not finite, and how many samples of the estimate's inverse went over.
#[derive(Clone, Copy)]
pub struct Checked {
    pub diverged: bool,
    pub overs: u32,
}

pub fn shadow_estimate(
    transform: &Transform,
    scratch: &mut [f64; 1024],
    ring: &FarRing,
    near: &[f32; 256],
    paths: &mut Paths,
    resets: &mut u64,
    bins: &mut [f64; 514],
    estimate: &mut [f32; 256],
    error: &mut [f32; 256],
    shadow: &mut [f64],
) -> Checked
    requires { length shadow.old ≡ 514 * ring.now.partitions }
    ensures { shadowed_of result paths.new resets.new estimate.new error.new shadow.new ≡ shadowed (ring_in ring.now) near.now paths.old resets.old shadow.old }
{
    echo(shadow, ring, bins);
    let overs = transform.later_half(scratch, bins, estimate);
    let diverged = errors(near, estimate, error);
    if diverged {
        diverge_shadow(paths, resets, shadow);
        *estimate = [0.0; 256];
        *error = *near;
    }
    Checked { diverged, overs }
}

pub fn output_estimate(
    transform: &Transform,
    scratch: &mut [f64; 1024],
    ring: &FarRing,
    near: &[f32; 256],
    paths: &mut Paths,
    suppressor: &mut Suppressor,
    resets: &mut u64,
    bins: &mut [f64; 514],
    error: &mut [f32; 256],
    shadow: &mut [f64],
    output: &mut [f64],
) -> Checked
    requires { length output.old ≡ 514 * ring.now.partitions }
    ensures { estimated_of result paths.new suppressor.new resets.new bins.new error.new shadow.new output.new ≡ estimated (ring_in ring.now) near.now paths.old suppressor.old resets.old shadow.old output.old }
{
    let mut estimate = [0.0f32; 256];
    echo(output, ring, bins);
    let overs = transform.later_half(scratch, bins, &mut estimate);
    let diverged = errors(near, &estimate, error);
    if diverged {
        diverge(paths, suppressor, resets, shadow, output);
        *error = [0.0; 256];
    }
    Checked { diverged, overs }
}
