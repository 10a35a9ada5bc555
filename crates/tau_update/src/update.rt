// Step 6: the normalized update of the shadow, with the gradient constraint.
ghost use Rattle.std.specs.Prelude.{◌≡◌, ◌*◌, length};
ghost use Rattle.fft.specs.Calls.{spectrum_of, overs_of};
ghost use Rattle.tau_spectra.specs.FarRing.{ring_in};
ghost use Rattle.tau_update.specs.Update.{factor_of, rate_of, rates_of, means_of, gradient_of, constrained, stepped, finite_to, framed, learnt_to, updated};

use complex::Complex;
use tau_clears::clears::diverge_shadow;
use tau_spectra::bins::{get, put};
use tau_spectra::ring::FarRing;
use tau_spectra::transform::Transform;
use tau_spectra::windows::slide;
use tau_state::state::Paths;
use tau_state::sums::smooth;

const STEP_SIZE: f64 = 1.0;

const STEP_POWER_SMOOTHING: f64 = 0.98;

const MIN_STEP_FRACTION: f64 = 0.02;

const REGULARIZATION: f64 = 1e-3;

// A bin below its usual power is stepped down by the square of its share.
fn factor(mean: f64, power: f64) -> f64
    ensures { result ≡ factor_of mean power }
{
    if 0.0 < mean {
        let share = numbers::min(power / mean, 1.0);
        return numbers::max(share * share, MIN_STEP_FRACTION);
    }
    1.0
}

fn rate(scale: f64, mean: f64, power: f64) -> f64
    ensures { result ≡ rate_of scale mean power }
{
    STEP_SIZE * factor(mean, power) * scale / (power + REGULARIZATION)
}

fn rates(scale: f64, means: &[f64; 257], powers: &[f64; 257], t: &mut [f64])
    requires { length t.old ≡ 257 }
    ensures { t.new ≡ rates_of scale means.now powers.now }
{
    for k in 0..257 {
        t[k] = rate(scale, means[k], powers[k]);
    }
}

fn new_means(powers: &[f64; 257], t: &mut [f64; 257])
    ensures { t.new ≡ means_of powers.now t.old }
{
    for k in 0..257 {
        t[k] = smooth(STEP_POWER_SMOOTHING, t[k], powers[k]);
    }
}

// conj(x) * e as independent products, so that nothing can be fused.
fn gradient(x: &[f64], e: &[f64; 514], rates: &[f64; 257], g: &mut [f64])
    requires { (length x.now ≡ 514) × (length g.old ≡ 514) }
    ensures { g.new ≡ gradient_of x.now e.now rates.now }
{
    for k in 0..257 {
        let u = get(x, k);
        let v = get(e, k);
        let z = Complex::new(u.re * v.re + u.im * v.im, u.re * v.im - u.im * v.re);
        put(g, k, z.scale(rates[k]));
    }
}

// The lags beyond one block are the wrap-around and no taps: they are zeroed. How many of all lags went over.
fn constrain(transform: &Transform, scratch: &mut [f64; 1024], g: &mut [f64; 514]) -> u32
    ensures g_after { g.new ≡ constrained g.old }
    ensures overs { result ≡ overs_of g.old }
{
    let mut lags = [0.0f32; 512];
    let overs = transform.first_half(scratch, g, &mut lags[..256]);
    transform.spectrum(scratch, &lags, g);
    overs
}

// One partition's weights with the gradient added, and whether all are finite.
fn take_step(w: &mut [f64], g: &[f64; 514]) -> bool
    requires { length w.old ≡ 514 }
    ensures w_after { w.new ≡ stepped g.now w.old }
    ensures finite { result ≡ finite_to w.new 514 }
{
    for k in 0..514 {
        w[k] = w[k] + g[k];
    }
    all_finite(w)
}

fn all_finite(w: &[f64]) -> bool
    requires { length w.now ≡ 514 }
    ensures { result ≡ finite_to w.now 514 }
{
    let mut good = true;
    for k in 0..514 {
        good = good & numbers::is_finite(w[k]);
    }
    good
}

// Whether all weights are finite, and how many lags of all partitions went over.
#[derive(Clone, Copy)]
struct Learned {
    finite: bool,
    overs: u32,
}

// All weights are written before the verdict on them.
fn learn(
    transform: &Transform,
    scratch: &mut [f64; 1024],
    ring: &FarRing,
    e: &[f64; 514],
    rates: &[f64; 257],
    shadow: &mut [f64],
) -> Learned
    requires { length shadow.old ≡ 514 * ring.now.partitions }
    ensures { record { weights = shadow.new; finite = result.finite; overs = result.overs } ≡ learnt_to (ring_in ring.now) e.now rates.now shadow.old ring.now.partitions }
{
    let mut g = [0.0f64; 514];
    let mut finite = true;
    let mut overs = 0u32;
    for p in 0..ring.partitions {
        gradient(ring.met_by(p), e, rates, &mut g);
        overs += constrain(transform, scratch, &mut g);
        let start = 514 * p;
        let end = start + 514;
        let fine = take_step(&mut shadow[start..end], &g);
        finite = finite & fine;
    }
    Learned { finite, overs }
}

// The error behind 256 zeros.
fn error_spectrum(
    transform: &Transform,
    scratch: &mut [f64; 1024],
    error: &[f32; 256],
    bins: &mut [f64; 514],
)
    ensures { bins.new ≡ spectrum_of (framed error.now) }
{
    let mut framed = [0.0f32; 512];
    slide(&mut framed, error);
    transform.spectrum(scratch, &framed, bins);
}

// How many lags of all partitions went over, 0 where the shadow is not updated.
pub fn adapt_shadow(
    transform: &Transform,
    scratch: &mut [f64; 1024],
    on: bool,
    ring: &FarRing,
    far_power: &[f64; 257],
    error: &[f32; 256],
    scale: f64,
    means: &mut [f64; 257],
    paths: &mut Paths,
    resets: &mut u64,
    shadow: &mut [f64],
) -> u32
    requires { length shadow.old ≡ 514 * ring.now.partitions }
    ensures { record { means = means.new; paths = paths.new; resets = resets.new; shadow = shadow.new; overs = result } ≡ updated on (ring_in ring.now) far_power.now error.now scale means.old paths.old resets.old shadow.old }
{
    if !on {
        return 0;
    }
    let mut e = [0.0f64; 514];
    let mut steps = [0.0f64; 257];
    error_spectrum(transform, scratch, error, &mut e);
    // by the means as they were, and then the means with this block's powers
    rates(scale, means, far_power, &mut steps);
    new_means(far_power, means);
    let learned = learn(transform, scratch, ring, &e, &steps, shadow);
    if learned.finite {
        return learned.overs;
    }
    diverge_shadow(paths, resets, shadow);
    learned.overs
}
