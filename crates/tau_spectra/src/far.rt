// Steps 1 and 4: what is heard from the loudspeaker.
ghost use Rattle.std.specs.Prelude.{◌≡◌, ◌≤◌, ◌<◌, ◌*◌, length};
ghost use Rattle.laws.specs.Parts.{with_part};
ghost use Rattle.fft.specs.Calls.{spectrum_of};
ghost use Rattle.tau_spectra.specs.Far.{sounds, energy_peak, drives, hear_far};

use crate::powers::{far_power_of, keep};
use crate::ring::next_slot;
use crate::transform::Transform;
use crate::windows::slide;
use tau_state::state::Far;
use tau_state::sums::energy;

const FAR_ACTIVITY_FRACTION: f64 = 1e-4;

// No branch here, so that the compiler takes several at once.
fn sounding(block: &[f32; 256]) -> bool
    ensures { result ≡ sounds block.now 256 }
{
    let mut on = false;
    for sample in block {
        on = on | (*sample != 0.0);
    }
    on
}

#[tactic(auto, unfolding(crate::specs::Far::energy_peak, laws::specs::Choice::pick))]
fn peak(old: f64, energy: f64) -> f64
    ensures { result ≡ energy_peak old energy }
{
    if old < energy { energy } else { old }
}

fn driving(peak: f64, energy: f64) -> bool
    ensures { result ≡ drives peak energy }
{
    (0.0 < peak) & (FAR_ACTIVITY_FRACTION * peak < energy)
}

// The spectrum of the window, in a slot of the ring.
fn store(
    transform: &Transform,
    scratch: &mut [f64; 1024],
    spectra: &mut [f64],
    slot: usize,
    partitions: usize,
    window: &[f32; 512],
)
    requires spectra_len { length spectra.old ≡ 514 * partitions }
    requires slot_in_ring { slot < partitions }
    requires at_most_32 { partitions ≤ 32 }
    ensures { spectra.new ≡ with_part 514 slot spectra.old (spectrum_of window.now) }
{
    let start = 514 * slot;
    let end = start + 514;
    transform.spectrum(scratch, window, &mut spectra[start..end]);
}

// Both steps. Whether the far end drives this block.
pub fn hear(
    transform: &Transform,
    scratch: &mut [f64; 1024],
    partitions: usize,
    far: &mut Far,
    block: &[f32; 256],
    spectra: &mut [f64],
    powers: &mut [f64],
    far_power: &mut [f64; 257],
) -> bool
    requires spectra_len { length spectra.old ≡ 514 * partitions }
    requires powers_len { length powers.old ≡ 257 * partitions }
    requires head_in_ring { far.old.head < partitions }
    requires at_most_32 { partitions ≤ 32 }
    ensures heard { record { far = far.new; active = result; spectra = spectra.new; powers = powers.new; far_power = far_power.new } ≡ hear_far partitions far.old block.now spectra.old powers.old }
    ensures head_in_ring { far.new.head < partitions }
{
    slide(&mut far.window, block);
    let head = next_slot(partitions, far.head);
    store(transform, scratch, spectra, head, partitions, &far.window);
    keep(spectra, powers, head, partitions);
    far_power_of(powers, partitions, far_power);
    let energy = energy(block, 256);
    let peak = peak(far.far_energy_peak, energy);
    far.head = head;
    let sounded = sounding(block);
    far.far_active = far.far_active | sounded;
    far.far_energy_peak = peak;
    driving(peak, energy)
}
