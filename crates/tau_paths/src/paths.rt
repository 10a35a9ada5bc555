// Step 5, the two-path comparison: has the shadow earned the output?
ghost use Rattle.std.specs.Prelude.{◌≡◌, ◌≤◌, length};
ghost use Rattle.laws.specs.Choice.{pick};
ghost use Rattle.laws.specs.Counting.{one_more32};
ghost use Rattle.tau_paths.specs.Paths.{weighed, leak_of, reason_of, acted, runs, weighed_if, compared};

use tau_clears::weights::{copy, leak_to};
use tau_state::report::{Outcome, Reason, outcome_of};
use tau_state::state::Paths;
use tau_state::sums::{energy, one_more, one_more_32, smooth};

const PATH_ERROR_SMOOTHING: f64 = 0.9;

const RESCUE_RATIO: f64 = 4.0;

const RESCUE_STREAK_BLOCKS: u32 = 8;

const TRANSFER_QUIET_STREAK_BLOCKS: u32 = 6;

const TRANSFER_MIN_ADVANTAGE: f64 = 0.1;

const TRANSFER_FULL_ADVANTAGE: f64 = 0.5;

const TRANSFER_RATE_MAX: f64 = 0.75;

// What is asked before the two paths are compared.
#[derive(Clone, Copy)]
pub struct Conditions {
    pub flushing: bool,
    pub diverged: bool,
    pub far_is_active: bool,
    pub established: bool,
}

// Whether the shadow was rescued, and why the output filter stood still or that it moved.
#[derive(Clone, Copy)]
pub struct Compared {
    pub rescued: bool,
    pub reason: Reason,
}

// A streak goes on or ends.
fn streak(on: bool, n: u32) -> u32
    ensures { result ≡ pick on (one_more32 n) 0 }
{
    if on {
        return one_more_32(n);
    }
    0
}

fn weigh(quiet: bool, shadow_energy: f64, output_energy: f64, p: Paths) -> Paths
    ensures { result ≡ weighed quiet shadow_energy output_energy p }
{
    let s = smooth(PATH_ERROR_SMOOTHING, p.shadow_error_power, shadow_energy);
    let o = smooth(PATH_ERROR_SMOOTHING, p.output_error_power, output_energy);
    let above = RESCUE_RATIO * o < s;
    Paths {
        shadow_error_power: s,
        output_error_power: o,
        quiet_streak: streak(quiet, p.quiet_streak),
        rescue_streak: streak(above, p.rescue_streak),
    }
}

fn leak(advantage: f64) -> f64
    ensures { result ≡ leak_of advantage }
{
    TRANSFER_RATE_MAX * numbers::min(advantage / TRANSFER_FULL_ADVANTAGE, 1.0)
}

// Why the output filter is to stand still: the first reason that holds. Otherwise it is to move.
fn decide(asked: Conditions, q: Paths) -> Reason
    ensures { result ≡ reason_of asked q }
{
    if asked.flushing {
        return Reason::FlushBlock;
    }
    if asked.diverged {
        return Reason::OutputDiverged;
    }
    if !asked.far_is_active {
        return Reason::FarNotActive;
    }
    if !asked.established {
        return Reason::NotEstablished;
    }
    if RESCUE_STREAK_BLOCKS <= q.rescue_streak {
        return Reason::Rescued;
    }
    if q.quiet_streak < TRANSFER_QUIET_STREAK_BLOCKS {
        return Reason::QuietStreakShort;
    }
    if !(0.0 < q.output_error_power) {
        return Reason::NoOutputPower;
    }
    let advantage = 1.0 - q.shadow_error_power / q.output_error_power;
    if !(TRANSFER_MIN_ADVANTAGE <= advantage) {
        return Reason::NoAdvantage;
    }
    Reason::Moved(leak(advantage))
}

// What is done is the reason's outcome, and nothing else decides it. Whether it is a rescue.
fn act(
    reason: Reason,
    paths: &mut Paths,
    transfers: &mut u64,
    shadow: &mut [f64],
    output: &mut [f64],
) -> bool
    requires { length shadow.old ≡ length output.old }
    ensures { record { paths = paths.new; transfers = transfers.new; rescued = result; reason = reason; shadow = shadow.new; output = output.new } ≡ acted reason paths.old transfers.old shadow.old output.old }
{
    match outcome_of(reason) {
        Outcome::Rescue => {
            copy(shadow, output);
            paths.shadow_error_power = paths.output_error_power;
            paths.rescue_streak = 0;
            true
        }
        Outcome::Move(leak) => {
            leak_to(output, shadow, leak);
            *transfers = one_more(*transfers);
            false
        }
        Outcome::NoMove | Outcome::NotRun => false,
    }
}

fn runs(asked: Conditions) -> bool
    ensures { result ≡ runs asked }
{
    !asked.flushing & !asked.diverged & asked.far_is_active & asked.established
}

// The powers and streaks that are decided on. Where the comparison does not run they stay.
fn weigh_if_run(
    asked: Conditions,
    quiet: bool,
    shadow_error: &[f32; 256],
    error: &[f32; 256],
    valid: usize,
    p: Paths,
) -> Paths
    requires { valid ≤ 256 }
    ensures { result ≡ weighed_if asked quiet shadow_error.now error.now valid p }
{
    if runs(asked) {
        return weigh(quiet, energy(shadow_error, valid), energy(error, valid), p);
    }
    p
}

pub fn compare(
    asked: Conditions,
    quiet: bool,
    shadow_error: &[f32; 256],
    error: &[f32; 256],
    valid: usize,
    paths: &mut Paths,
    transfers: &mut u64,
    shadow: &mut [f64],
    output: &mut [f64],
) -> Compared
    requires valid_bound { valid ≤ 256 }
    requires shadow_len { length shadow.old ≡ length output.old }
    ensures { record { paths = paths.new; transfers = transfers.new; rescued = result.rescued; reason = result.reason; shadow = shadow.new; output = output.new } ≡ compared asked quiet shadow_error.now error.now valid paths.old transfers.old shadow.old output.old }
{
    let weighed = weigh_if_run(asked, quiet, shadow_error, error, valid, *paths);
    let reason = decide(asked, weighed);
    *paths = weighed;
    let rescued = act(reason, paths, transfers, shadow, output);
    Compared { rescued, reason }
}
