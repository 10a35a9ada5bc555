// The NLMS update: each weight takes its step, in the lag order of the sums, and where one is not finite all are cleared.
#![tactic(auto, unfolding(crate::specs::Update::scale_of, crate::specs::Update::nudge_of))]

ghost use Rattle.std.specs.Prelude.{◌≡◌, true, ℕ, ◌<◌, length, get_or};
ghost use Rattle.std.specs.List.{list_all};
ghost use Rattle.std.specs.Float.{nan, binary32, binary64};
ghost use Rattle.std.specs.Float.Ieee.{add, mul};
ghost use Rattle.laws.specs.Loops.{over};
ghost use Rattle.numbers.specs.Finite.{is_finite};
ghost use Rattle.numbers.specs.Narrowing.{narrow_of};
ghost use Rattle.rho_taps.specs.Runs.{NoNan, newest, nudged_by};
ghost use Rattle.rho_taps.specs.Update.{scale_of, nudge_of, updated_of, sound_of, adapted_of};

use crate::clean::{clean, widen};

const STEP_SIZE: f64 = 0.5;

const REGULARIZATION: f64 = 1e-3;

// What the pair's far samples are scaled by in the step of their weights.
pub fn scale_of(error: f64, energy: f64) -> f64
    ensures { result ≡ scale_of error energy }
{
    STEP_SIZE * error / (REGULARIZATION + energy)
}

fn nudge(scale: f64, x: f32, weight: f32) -> f32
    ensures { result ≡ nudge_of scale x weight }
{
    weight + numbers::narrow(scale * numbers::widen(x))
}

// What 32 weights are to change by, with the samples downward. All products first: `narrow_into` narrows several at once.
fn steps_of(scale: f64, samples: &[f32]) -> [f32; 32]
    requires { length samples.now ≡ 32 }
    ensures { (k : ℕ) → k < 32 → get_or result k nan ≡ narrow_of (mul binary64 scale (newest samples.now k)) }
{
    let products = products_of(scale, samples);
    let mut steps = [0.0f32; 32];
    narrow_list::narrow_into(&products, &mut steps);
    steps
}

fn products_of(scale: f64, samples: &[f32]) -> [f64; 32]
    requires { length samples.now ≡ 32 }
    ensures { (k : ℕ) → k < 32 → get_or result k nan ≡ mul binary64 scale (newest samples.now k) }
{
    if clean(samples) {
        widened_products::<true>(scale, samples)
    } else {
        widened_products::<false>(scale, samples)
    }
}

// By itself: no reference to the products is taken here, so the compiler knows that a store leaves the history alone, and takes
// several at once.
fn widened_products<const CLEAN: bool>(scale: f64, samples: &[f32]) -> [f64; 32]
    requires samples_len { length samples.now ≡ 32 }
    requires clean_samples { CLEAN ≡ true → NoNan samples.now }
    ensures { (k : ℕ) → k < 32 → get_or result k nan ≡ mul binary64 scale (newest samples.now k) }
{
    let mut products = [0.0f64; 32];
    for k in 0..32usize {
        let x = widen::<CLEAN>(samples[31 - k]);
        products[k] = scale * x;
    }
    products
}

// By place, and not over `iter_mut` with a `zip`, of which no contract says what the weights then hold.
fn add_steps(steps: &[f32; 32], weights: &mut [f32]) -> bool
    requires { length weights.old ≡ 32 }
    ensures weights_after { weights.new ≡ over 32 (λ k weight. add binary32 weight (get_or steps.now k nan)) weights.old }
    ensures value { result ≡ list_all is_finite weights.new }
{
    let mut sound = true;
    for k in 0..32usize {
        let next = weights[k] + steps[k];
        weights[k] = next;
        sound = sound & numbers::is_finite32(next);
    }
    sound
}

// 32 weights upward by as many samples downward. Whether all of the weights are finite.
fn update_group(scale: f64, samples: &[f32], weights: &mut [f32]) -> bool
    requires samples_len { length samples.now ≡ 32 }
    requires weights_len { length weights.old ≡ 32 }
    ensures weights_after { weights.new ≡ nudged_by scale samples.now weights.old }
    ensures value { result ≡ list_all is_finite weights.new }
{
    let steps = steps_of(scale, samples);
    add_steps(&steps, weights)
}

// One by one.
fn update_rest(scale: f64, samples: &[f32], weights: &mut [f32]) -> bool
    requires { length samples.now ≡ length weights.old }
    ensures weights_after { weights.new ≡ nudged_by scale samples.now weights.old }
    ensures value { result ≡ list_all is_finite weights.new }
{
    let mut sound = true;
    let n = samples.len();
    for k in 0..n {
        let next = nudge(scale, samples[n - 1 - k], weights[k]);
        weights[k] = next;
        sound = sound & numbers::is_finite32(next);
    }
    sound
}

// In groups, since the compiler takes one weight after the other where each is narrowed by itself, and then what they leave.
fn update_run(scale: f64, samples: &[f32], weights: &mut [f32]) -> bool
    requires { length samples.now ≡ length weights.old }
    ensures weights_after { weights.new ≡ nudged_by scale samples.now weights.old }
    ensures value { result ≡ list_all is_finite weights.new }
{
    let mut sound = true;
    let n = samples.len();
    for g in 0..n / 32 {
        let at = 32 * g;
        let fine = update_group(
            scale,
            &samples[n - at - 32..n - at],
            &mut weights[at..at + 32],
        );
        sound = sound & fine;
    }
    let rest = n % 32;
    let fine = update_rest(scale, &samples[..rest], &mut weights[n - rest..]);
    sound & fine
}

// All weights updated. Whether all of them are finite.
fn update(scale: f64, history: &[f32], pos: usize, weights: &mut [f32]) -> bool
    requires weights_len { length weights.old ≡ length history.now }
    requires pos_in_bounds { pos < length history.now }
    ensures weights_after { weights.new ≡ updated_of scale history.now pos (length history.now) weights.old }
    ensures value { result ≡ sound_of (length history.now) (updated_of scale history.now pos (length history.now) weights.old) }
{
    let (newer, older) = history.split_at(pos + 1);
    let (first, second) = weights.split_at_mut(pos + 1);
    let sound_first = update_run(scale, newer, first);
    let sound_second = update_run(scale, older, second);
    sound_first & sound_second
}

// What the pair does to the filter. The answer is the new count of resets.
pub fn adapt(
    fine: bool,
    freeze: u32,
    scale: f64,
    history: &[f32],
    pos: usize,
    weights: &mut [f32],
    resets: u64,
) -> u64
    requires weights_len { length weights.old ≡ length history.now }
    requires pos_in_bounds { pos < length history.now }
    ensures { record { weights = weights.new; resets = result } ≡ adapted_of fine freeze scale history.now pos (length history.now) weights.old resets }
{
    if !fine {
        weights.fill(0.0);
        return resets.saturating_add(1);
    }
    if freeze != 0 {
        return resets;
    }
    if update(scale, history, pos, weights) {
        return resets;
    }
    weights.fill(0.0);
    resets.saturating_add(1)
}
