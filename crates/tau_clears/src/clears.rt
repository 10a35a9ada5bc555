// The three clears, each with all that it touches besides the weights, and each counted.
ghost use Rattle.std.specs.Prelude.{◌≡◌};
ghost use Rattle.tau_clears.specs.Clears.{released, diverge_shadow, diverge_of, retire_output};

use crate::weights::halve;
use tau_state::state::{Paths, Suppressor};
use tau_state::sums::one_more;

// The suppressor's powers are derived from the output filter, so they restart with it; its window is a stream and stays.
#[tactic(auto, unfolding(crate::specs::Clears::released))]
fn release(suppressor: &mut Suppressor)
    ensures { suppressor.new ≡ released suppressor.old }
{
    suppressor.echo_power = [0.0f64; 257];
    suppressor.error_power = [0.0f64; 257];
    suppressor.gain = [1.0f64; 257];
}

// Zeroes the shadow: the recovery of a shadow that is not finite while the output is sound.
#[tactic(auto, unfolding(crate::specs::Clears::diverge_shadow, crate::specs::Weights::cleared))]
pub fn diverge_shadow(paths: &mut Paths, resets: &mut u64, shadow: &mut [f64])
    ensures { record { paths = paths.new; resets = resets.new; shadow = shadow.new } ≡ diverge_shadow paths.old resets.old shadow.old }
{
    shadow.fill(0.0);
    paths.shadow_error_power = paths.output_error_power;
    paths.rescue_streak = 0;
    *resets = one_more(*resets);
}

// Zeroes both filters: the recovery from an output that is not finite.
#[tactic(auto, unfolding(crate::specs::Clears::diverge_of, crate::specs::Weights::cleared))]
pub fn diverge(
    paths: &mut Paths,
    suppressor: &mut Suppressor,
    resets: &mut u64,
    shadow: &mut [f64],
    output: &mut [f64],
)
    ensures { record { paths = paths.new; suppressor = suppressor.new; resets = resets.new; shadow = shadow.new; output = output.new } ≡ diverge_of paths.old suppressor.old resets.old shadow.old output.old }
{
    shadow.fill(0.0);
    output.fill(0.0);
    release(suppressor);
    paths.shadow_error_power = 0.0;
    paths.output_error_power = 0.0;
    paths.rescue_streak = 0;
    *resets = one_more(*resets);
}

// Halves the output: the recovery of an output filter that adds power. The shadow stays.
#[tactic(auto, unfolding(crate::specs::Clears::retire_output))]
pub fn retire_output(
    near_power: f64,
    paths: &mut Paths,
    suppressor: &mut Suppressor,
    resets: &mut u64,
    output: &mut [f64],
)
    ensures { record { paths = paths.new; suppressor = suppressor.new; resets = resets.new; output = output.new } ≡ retire_output near_power paths.old suppressor.old resets.old output.old }
{
    halve(output);
    release(suppressor);
    paths.output_error_power = near_power;
    paths.rescue_streak = 0;
    *resets = one_more(*resets);
}
