// The states that creation and reset give, and what they write to the lent buffers.
ghost use Rattle.std.specs.Prelude.{◌≡◌, ◌≤◌};
ghost use Rattle.tau_clears.specs.Weights.{cleared};
ghost use Rattle.tau_fresh.specs.Fresh.{fresh_mic, fresh_state_of, fresh_of, empty_of};

use tau_clears::weights::clear;
use tau_state::state::{Detector, Far, Guard, Mic, Paths, Powers, Suppressor, TauCanceller};

fn fresh_mic(unit: f64, transfers: u64, divergence_resets: u64) -> Mic
    ensures { result ≡ fresh_mic unit transfers divergence_resets }
{
    let none = [0.0f64; 257];
    let full = [unit; 257];
    let window = [0.0f32; 512];
    Mic {
        detector: Detector {
            double_talk: false,
            dtd_collapsed: false,
            protect_output: false,
            dtd_blocks: 0,
            dtd_baseline: 0.0,
            dtd_deviation: 0.0,
            coherence_smooth: 0.0,
            step_scale: unit,
        },
        paths: Paths {
            shadow_error_power: 0.0,
            output_error_power: 0.0,
            quiet_streak: 0,
            rescue_streak: 0,
        },
        far_power_mean: none,
        suppressor: Suppressor {
            echo_power: none,
            error_power: none,
            gain: full,
            error_window: window,
        },
        guard: Guard {
            divergence_near_power: 0.0,
            divergence_out_power: 0.0,
        },
        powers: Powers {
            near_power: 0.0,
            residual_power: 0.0,
        },
        transfers,
        divergence_resets,
    }
}

fn state(partitions: usize, suppress: bool, head: usize, mic: Mic) -> TauCanceller
    ensures { result ≡ fresh_state_of partitions suppress head mic }
{
    let carry = [0.0f32; 256];
    let window = [0.0f32; 512];
    TauCanceller {
        partitions,
        suppress,
        carried: 0,
        near_carry: carry,
        far_carry: carry,
        far: Far {
            window,
            head,
            far_active: false,
            far_energy_peak: 0.0,
        },
        mic,
    }
}

pub fn fresh(
    partitions: usize,
    suppress: bool,
    transfers: u64,
    divergence_resets: u64,
) -> TauCanceller
    requires { 1 ≤ partitions }
    ensures { result ≡ fresh_of partitions suppress transfers divergence_resets }
{
    state(
        partitions,
        suppress,
        partitions - 1,
        fresh_mic(1.0, transfers, divergence_resets),
    )
}

// Of a refused creation.
pub fn empty() -> TauCanceller
    ensures { result ≡ empty_of }
{
    state(0, false, 0, fresh_mic(0.0, 0, 0))
}

pub fn clear_all(shadow: &mut [f64], output: &mut [f64], spectra: &mut [f64], powers: &mut [f64])
    ensures { (shadow.new ≡ cleared shadow.old) × (output.new ≡ cleared output.old) × (spectra.new ≡ cleared spectra.old) × (powers.new ≡ cleared powers.old) }
{
    clear(shadow);
    clear(output);
    clear(spectra);
    clear(powers);
}
