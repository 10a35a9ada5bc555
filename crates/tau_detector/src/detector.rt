// The house detector: how much of the microphone the shadow's echo estimate accounts for. The numbers are document 01's.
ghost use Rattle.std.specs.Prelude.{◌≡◌, ◌≤◌};
ghost use Rattle.tau_detector.specs.Detector.{coherence_of, count_of, baseline_of, collapsed_of, step_scale_of, protect_of, learned, judged};

use tau_state::state::{DTD_ESTABLISH_BLOCKS, Detector};
use tau_state::sums::{cross, energy, smooth};

const COHERENCE_SMOOTHING: f64 = 0.8;

const DTD_MARGIN_DEVIATIONS: f64 = 3.0;

const DTD_DEVIATION_FLOOR: f64 = 0.01;

const DTD_DEVIATION_SMOOTHING: f64 = 0.99;

const DTD_BASELINE_ATTACK: f64 = 0.5;

const DTD_BASELINE_DECAY: f64 = 0.99;

const FULL_SPEED_COHERENCE: f64 = 0.5;

const STEP_SCALE_FLOOR: f64 = 0.01;

const PROTECT_COHERENCE: f64 = 0.2;

// Document 01's rule whole. Since request K5 no block without near energy comes here, so the first test is never met.
fn coherence(cross: f64, near_energy: f64, estimate_energy: f64) -> f64
    ensures { result ≡ coherence_of cross near_energy estimate_energy }
{
    if near_energy == 0.0 {
        return 0.0;
    }
    if estimate_energy == 0.0 {
        return 0.0;
    }
    let ratio = (cross * cross) / (near_energy * estimate_energy);
    if ratio < 1.0 {
        return ratio;
    }
    1.0
}

fn count(n: u32) -> u32
    ensures { result ≡ count_of n }
{
    if n < DTD_ESTABLISH_BLOCKS {
        n + 1
    } else {
        DTD_ESTABLISH_BLOCKS
    }
}

fn baseline(b: f64, c: f64) -> f64
    ensures { result ≡ baseline_of b c }
{
    if b < c {
        return smooth(DTD_BASELINE_ATTACK, b, c);
    }
    smooth(DTD_BASELINE_DECAY, b, c)
}

fn collapsed(n: u32, b: f64, d: f64, c: f64) -> bool
    ensures { result ≡ collapsed_of n b d c }
{
    let margin = DTD_MARGIN_DEVIATIONS * numbers::max(d, DTD_DEVIATION_FLOOR);
    let established = DTD_ESTABLISH_BLOCKS <= n;
    established & (c < b - margin)
}

fn scale(n: u32, s: f64) -> f64
    ensures { result ≡ step_scale_of n s }
{
    if DTD_ESTABLISH_BLOCKS <= n {
        return numbers::clamp(s / FULL_SPEED_COHERENCE, STEP_SCALE_FLOOR, 1.0);
    }
    1.0
}

fn protect(n: u32, s: f64) -> bool
    ensures { result ≡ protect_of n s }
{
    let established = DTD_ESTABLISH_BLOCKS <= n;
    established & (s < PROTECT_COHERENCE)
}

fn learn(d: Detector, c: f64) -> Detector
    ensures { result ≡ learned d c }
{
    let n = count(d.dtd_blocks);
    let s = smooth(COHERENCE_SMOOTHING, d.coherence_smooth, c);
    let x = collapsed(n, d.dtd_baseline, d.dtd_deviation, c);
    let p = protect(n, s);
    let next = baseline(d.dtd_baseline, c);
    let away = numbers::abs(c - d.dtd_baseline);
    Detector {
        double_talk: x | p,
        dtd_collapsed: x,
        protect_output: p,
        dtd_blocks: n,
        dtd_baseline: next,
        dtd_deviation: smooth(DTD_DEVIATION_SMOOTHING, d.dtd_deviation, away),
        coherence_smooth: s,
        step_scale: scale(n, s),
    }
}

// The detector after a block; its verdict stands in it. It learns from far-active blocks, but not from one in which the microphone is
// muted (request K5): there the near energy is 0.
pub fn double_talk_block(
    detector: &mut Detector,
    far_is_active: bool,
    near_energy: f64,
    near: &[f32; 256],
    estimate: &[f32; 256],
    valid: usize,
)
    requires { valid ≤ 256 }
    ensures { detector.new ≡ judged far_is_active near_energy near.now estimate.now valid detector.old }
{
    let is_evidence = far_is_active & !(near_energy == 0.0);
    if is_evidence {
        let c = coherence(
            cross(near, estimate, valid),
            near_energy,
            energy(estimate, valid),
        );
        *detector = learn(*detector, c);
    } else {
        detector.double_talk = detector.dtd_collapsed | detector.protect_output;
    }
}
