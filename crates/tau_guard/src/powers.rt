// Step 9: the two smoothed powers for the host.
ghost use Rattle.std.specs.Prelude.{◌≡◌, ◌≤◌};
ghost use Rattle.tau_guard.specs.Powers.{followed, hosted};

use tau_state::state::Powers;
use tau_state::sums::smooth;

const ERLE_SMOOTHING: f64 = 0.999;

pub(crate) fn hear_power(samples: &[f32; 256], valid: usize, power: f64) -> f64
    requires { valid ≤ 256 }
    ensures { result ≡ followed samples.now valid power }
{
    let mut acc = power;
    for i in 0..valid {
        let x = numbers::widen(samples[i]);
        acc = smooth(ERLE_SMOOTHING, acc, x * x);
    }
    acc
}

pub fn host_powers(near: &[f32; 256], block: &[f32; 256], valid: usize, powers: &mut Powers)
    requires { valid ≤ 256 }
    ensures { powers.new ≡ hosted near.now block.now valid powers.old }
{
    powers.near_power = hear_power(near, valid, powers.near_power);
    powers.residual_power = hear_power(block, valid, powers.residual_power);
}
