// Step 7, the residual suppressor.
ghost use Rattle.std.specs.Prelude.{◌≡◌, ◌≤◌, ◌<◌, ◌+◌, ◌-◌, length};
ghost use Rattle.tau_suppressor.specs.Suppressor.{powered, target_of, gain_of, gained, span_of, sum_from, average_of, averaged, shaped, suppressed};

use tau_spectra::bins::{get, power, put};
use tau_spectra::transform::Transform;
use tau_spectra::windows::slide;
use tau_state::state::Suppressor;
use tau_state::sums::smooth;

const SUPPRESSION_SMOOTHING: f64 = 0.7;

const RESIDUAL_ECHO_LEAK: f64 = 0.0003;

const MIN_SUPPRESSION_GAIN: f64 = 0.1;

const GAIN_SMOOTHING: f64 = 0.5;

const GAIN_RELEASE_SMOOTHING: f64 = 0.2;

const GAIN_BIN_SPAN: usize = 4;

pub(crate) fn bin_powers(s: &[f64; 514], a: &mut [f64; 257])
    ensures { a.new ≡ powered s.now a.old }
{
    for k in 0..257 {
        a[k] = smooth(SUPPRESSION_SMOOTHING, a[k], power(s, k));
    }
}

fn target(protect: bool, echo: f64, err: f64) -> f64
    ensures { result ≡ target_of protect echo err }
{
    if protect {
        return 1.0;
    }
    let sum = err + RESIDUAL_ECHO_LEAK * echo;
    if sum <= 0.0 {
        return 1.0;
    }
    numbers::clamp(err / sum, MIN_SUPPRESSION_GAIN, 1.0)
}

// It backs off faster than it engages.
fn gain(target: f64, g: f64) -> f64
    ensures { result ≡ gain_of target g }
{
    if g < target {
        return smooth(GAIN_RELEASE_SMOOTHING, g, target);
    }
    smooth(GAIN_SMOOTHING, g, target)
}

pub(crate) fn gains(protect: bool, echo: &[f64; 257], err: &[f64; 257], g: &mut [f64; 257])
    ensures { g.new ≡ gained protect echo.now err.now g.old }
{
    for k in 0..257 {
        let t = target(protect, echo[k], err[k]);
        g[k] = gain(t, g[k]);
    }
}

fn first(k: usize) -> usize
    ensures { result ≡ k - 4 }
{
    if k < GAIN_BIN_SPAN {
        return 0;
    }
    k - GAIN_BIN_SPAN
}

fn span(k: usize) -> u32
    requires { k < 257 }
    ensures { (result ≡ span_of k) × (result ≤ 9) × ((k - 4) + result ≤ 257) }
{
    let lo = first(k);
    if k < 253 {
        return (k + 5 - lo) as u32;
    }
    (257 - lo) as u32
}

fn sum_from(g: &[f64; 257], lo: usize, n: u32) -> f64
    requires { (n ≤ 9) × (lo + n ≤ 257) }
    ensures { result ≡ sum_from g.now lo n }
{
    let mut t = 0.0f64;
    for k in 0..n {
        t = t + g[lo + k as usize];
    }
    t
}

fn average(g: &[f64; 257], k: usize) -> f64
    requires { k < 257 }
    ensures { result ≡ average_of g.now k }
{
    let lo = first(k);
    let n = span(k);
    sum_from(g, lo, n) / (n as f64)
}

// Each bin times the average of the gains about it.
pub(crate) fn shape(g: &[f64; 257], s: &mut [f64])
    requires { length s.old ≡ 514 }
    ensures { s.new ≡ shaped (averaged g.now) s.old }
{
    for k in 0..257 {
        let z = get(s, k).scale(average(g, k));
        put(s, k, z);
    }
}

// How many samples of its inverse went over, 0 where it does not run.
pub fn suppress(
    transform: &Transform,
    scratch: &mut [f64; 1024],
    on: bool,
    protect: bool,
    estimate: &[f64; 514],
    suppressor: &mut Suppressor,
    block: &mut [f32; 256],
) -> u32
    ensures { record { suppressor = suppressor.new; block = block.new; overs = result } ≡ suppressed on protect block.old estimate.now suppressor.old }
{
    slide(&mut suppressor.error_window, block);
    if on {
        let mut bins = [0.0f64; 514];
        transform.spectrum(scratch, &suppressor.error_window, &mut bins);
        bin_powers(estimate, &mut suppressor.echo_power);
        bin_powers(&bins, &mut suppressor.error_power);
        gains(
            protect,
            &suppressor.echo_power,
            &suppressor.error_power,
            &mut suppressor.gain,
        );
        shape(&suppressor.gain, &mut bins);
        return transform.later_half(scratch, &bins, block);
    }
    0
}
