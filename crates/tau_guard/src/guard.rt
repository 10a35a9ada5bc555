// Step 8, the guard: a canceller that gives more power than it takes has diverged, finite or not.
ghost use Rattle.std.specs.Prelude.{◌≡◌, ◌≤◌};
ghost use Rattle.tau_guard.specs.Guard.{watched, trips, replaced, guarded};

use tau_clears::clears::retire_output;
use tau_state::state::{Guard, Paths, Suppressor};
use tau_state::sums::{energy, smooth};

const DIVERGENCE_SMOOTHING: f64 = 0.98;

const DIVERGENCE_RATIO: f64 = 1.05;

pub(crate) fn watch(near_energy: f64, out_energy: f64, g: Guard) -> Guard
    ensures { result ≡ watched near_energy out_energy g }
{
    Guard {
        divergence_near_power: smooth(DIVERGENCE_SMOOTHING, g.divergence_near_power, near_energy),
        divergence_out_power: smooth(DIVERGENCE_SMOOTHING, g.divergence_out_power, out_energy),
    }
}

pub(crate) fn tripped(g: Guard) -> bool
    ensures { result ≡ trips g }
{
    let heard = 0.0 < g.divergence_near_power;
    let above = DIVERGENCE_RATIO * g.divergence_near_power < g.divergence_out_power;
    heard & above
}

// The near block in the valid places. A loop: for std's copy_from_slice the host library would need C's memmove.
pub(crate) fn replace(near: &[f32; 256], valid: usize, block: &mut [f32; 256])
    requires { valid ≤ 256 }
    ensures { block.new ≡ replaced near.now valid block.old }
{
    for i in 0..valid {
        block[i] = near[i];
    }
}

pub fn guard(
    near: &[f32; 256],
    near_energy: f64,
    valid: usize,
    g: &mut Guard,
    suppressor: &mut Suppressor,
    paths: &mut Paths,
    resets: &mut u64,
    block: &mut [f32; 256],
    output: &mut [f64],
)
    requires { valid ≤ 256 }
    ensures { record { guard = g.new; suppressor = suppressor.new; paths = paths.new; resets = resets.new; block = block.new; output = output.new } ≡ guarded near.now near_energy valid g.old suppressor.old paths.old resets.old block.old output.old }
{
    *g = watch(near_energy, energy(block, valid), *g);
    if !tripped(*g) {
        return;
    }
    retire_output(g.divergence_near_power, paths, suppressor, resets, output);
    replace(near, valid, block);
    g.divergence_out_power = g.divergence_near_power;
}
