// One pair, as `step` in rho.rs.
#![tactic(auto, unfolding(laws::specs::Choice::pick, crate::specs::Sample::loud_of, crate::specs::Sample::freeze_of, crate::specs::Sample::smooth_of))]

ghost use Rattle.std.specs.Prelude.{◌≡◌, ◌<◌, length};
ghost use Rattle.rho_sample.specs.Sample.{loud_of, freeze_of, smooth_of, step_of};

use rho_state::state::RhoCanceller;
use rho_taps::peak::peak;
use rho_taps::ring::{next_position, sums_of};
use rho_taps::update::{adapt, scale_of};

const GEIGEL_THRESHOLD: f32 = 0.5;

const ERLE_SMOOTHING: f64 = 0.999;

// The product is an f32 product: at a subnormal peak it rounds.
fn is_loud(near: f32, peak: f32) -> bool
    ensures { result ≡ loud_of near peak }
{
    numbers::abs32(near) > GEIGEL_THRESHOLD * peak
}

// What is left of the freeze after the pair.
fn freeze(hangover: u32, remaining: u32, loud: bool) -> u32
    ensures { result ≡ freeze_of hangover remaining loud }
{
    if loud {
        return hangover;
    }
    remaining.saturating_sub(1)
}

fn smooth(power: f64, x: f32) -> f64
    ensures { result ≡ smooth_of power x }
{
    let wide = numbers::widen(x);
    ERLE_SMOOTHING * power + (1.0 - ERLE_SMOOTHING) * (wide * wide)
}

// The pair's output. The state and both buffers are then those after the pair.
pub fn step(
    state: &mut RhoCanceller,
    weights: &mut [f32],
    history: &mut [f32],
    near: f32,
    far: f32,
) -> f32
    requires weights_len { length weights.old ≡ state.old.taps }
    requires history_len { length history.old ≡ state.old.taps }
    requires pos_lt_taps { state.old.pos < state.old.taps }
    ensures { record { engine = record { state = state.new; weights = weights.new; history = history.new }; output = result } ≡ step_of (record { state = state.old; weights = weights.old; history = history.old }) near far }
{
    let pos = next_position(state.pos, state.taps);
    history[pos] = far;
    let sums = sums_of(weights, history, pos);
    let error = numbers::widen(near) - sums.estimate;
    let output = numbers::narrow(error);
    let fine = numbers::is_finite32(output);
    let loud = is_loud(near, peak(history));
    let left = freeze(state.hangover_samples, state.hangover_remaining, loud);
    state.divergence_resets = adapt(
        fine,
        left,
        scale_of(error, sums.energy),
        history,
        pos,
        weights,
        state.divergence_resets,
    );
    let delivered = numbers::finite_or_zero(output);
    state.pos = pos;
    state.hangover_remaining = left;
    state.near_power = smooth(state.near_power, near);
    state.residual_power = smooth(state.residual_power, delivered);
    delivered
}
