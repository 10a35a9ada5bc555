// The powers of the stored spectra, kept so that no block squares them all again.
ghost use Rattle.std.specs.Prelude.{◌≡◌, ◌≤◌, ◌<◌, ◌*◌, ◌/◌, length, get_or};
ghost use Rattle.std.specs.Float.{nan, binary64};
ghost use Rattle.std.specs.Float.Ieee.{add};
ghost use Rattle.laws.specs.Loops.{over};
ghost use Rattle.laws.specs.Parts.{part, with_part};
ghost use Rattle.tau_spectra.specs.Powers.{powers_of, kept_power_to, four_on};

use crate::bins::power;

// A spectrum's powers, bin by bin.
fn square(spectrum: &[f64], powers: &mut [f64])
    requires spectrum_len { length spectrum.now ≡ 514 }
    requires powers_len { length powers.old ≡ 257 }
    ensures { powers.new ≡ powers_of spectrum.now }
{
    for k in 0..257 {
        powers[k] = power(spectrum, k);
    }
}

// The powers of the spectrum in a slot, in the same slot of theirs.
pub fn keep(spectra: &[f64], powers: &mut [f64], slot: usize, partitions: usize)
    requires spectra_len { length spectra.now ≡ 514 * partitions }
    requires powers_len { length powers.old ≡ 257 * partitions }
    requires slot_in_ring { slot < partitions }
    requires at_most_32 { partitions ≤ 32 }
    ensures { powers.new ≡ with_part 257 slot powers.old (powers_of (part 514 slot spectra.now)) }
{
    let start = 514 * slot;
    let place = 257 * slot;
    square(
        &spectra[start..start + 514],
        &mut powers[place..place + 257],
    );
}

// One slot's powers, bin by bin onto the sum.
fn add_slot(sum: &mut [f64; 257], powers: &[f64])
    requires { length powers.now ≡ 257 }
    ensures { sum.new ≡ over 257 (λ k a. add binary64 a (get_or powers.now k nan)) sum.old }
{
    for k in 0..257 {
        sum[k] = sum[k] + powers[k];
    }
}

// Four slots' powers, bin by bin onto the sum, in the slots' order: the sum goes through memory once for four of them.
fn add_four(sum: &mut [f64; 257], powers: &[f64])
    requires { length powers.now ≡ 1028 }
    ensures { sum.new ≡ over 257 (four_on powers.now) sum.old }
{
    for k in 0..257 {
        sum[k] = sum[k] + powers[k] + powers[257 + k] + powers[514 + k] + powers[771 + k];
    }
}

// The sum of the slots that make whole fours.
fn add_fours(powers: &[f64], partitions: usize, sum: &mut [f64; 257])
    requires powers_len { length powers.now ≡ 257 * partitions }
    requires at_most_32 { partitions ≤ 32 }
    ensures { sum.new ≡ kept_power_to powers.now (4 * (partitions / 4)) }
{
    *sum = [0.0f64; 257];
    for four in 0..partitions / 4 {
        let start = 1028 * four;
        add_four(sum, &powers[start..start + 1028]);
    }
}

// By slot and not by age: the source's order, and another one would round otherwise.
pub fn far_power_of(powers: &[f64], partitions: usize, sum: &mut [f64; 257])
    requires powers_len { length powers.now ≡ 257 * partitions }
    requires at_most_32 { partitions ≤ 32 }
    ensures { sum.new ≡ kept_power_to powers.now partitions }
{
    add_fours(powers, partitions, sum);
    for slot in 4 * (partitions / 4)..partitions {
        let start = 257 * slot;
        add_slot(sum, &powers[start..start + 257]);
    }
}
