// The refusals, by their numbers, in document 01's order.
ghost use Rattle.std.specs.Prelude.{◌≡◌, ◌≤◌};
ghost use Rattle.tau_fresh.specs.Refusals.{sized_of, create_refusal, state_refusal, pairs_refusal, process_refusal, flush_refusal};

use tau_state::ranges::in_range;
use tau_state::state::TauCanceller;

fn sizes_fit(partitions: usize, shadow: usize, output: usize, spectra: usize, powers: usize) -> bool
    requires { partitions ≤ 32 }
    ensures { result ≡ sized_of partitions shadow output spectra powers }
{
    let n = 514 * partitions;
    if shadow != n {
        return false;
    }
    if output != n {
        return false;
    }
    if spectra != n {
        return false;
    }
    powers == 257 * partitions
}

pub fn create_refusal(
    partitions: usize,
    shadow: usize,
    output: usize,
    spectra: usize,
    powers: usize,
) -> u32
    ensures { result ≡ create_refusal partitions shadow output spectra powers }
{
    if partitions < 1 {
        return 1;
    }
    if 32 < partitions {
        return 1;
    }
    if !sizes_fit(partitions, shadow, output, spectra, powers) {
        return 2;
    }
    0
}

pub fn state_refusal(
    s: TauCanceller,
    shadow: usize,
    output: usize,
    spectra: usize,
    powers: usize,
) -> u32
    ensures { result ≡ state_refusal s shadow output spectra powers }
{
    if !in_range(&s) {
        return 6;
    }
    let partitions = s.partitions;
    if !sizes_fit(partitions, shadow, output, spectra, powers) {
        return 2;
    }
    0
}

fn pairs_refusal(carried: usize, near: usize, far: usize, out: usize) -> u32
    requires { carried ≤ 255 }
    ensures { result ≡ pairs_refusal carried near far out }
{
    if near != far {
        return 3;
    }
    if 4096 < near {
        return 4;
    }
    if out < (carried + near) / 256 * 256 {
        return 5;
    }
    0
}

pub fn process_refusal(
    s: TauCanceller,
    shadow: usize,
    output: usize,
    spectra: usize,
    powers: usize,
    near: usize,
    far: usize,
    out: usize,
) -> u32
    ensures { result ≡ process_refusal s shadow output spectra powers near far out }
{
    let first = state_refusal(s, shadow, output, spectra, powers);
    if first != 0 {
        return first;
    }
    pairs_refusal(s.carried, near, far, out)
}

pub fn flush_refusal(
    s: TauCanceller,
    shadow: usize,
    output: usize,
    spectra: usize,
    powers: usize,
    out: usize,
) -> u32
    ensures { result ≡ flush_refusal s shadow output spectra powers out }
{
    let first = state_refusal(s, shadow, output, spectra, powers);
    if first != 0 {
        return first;
    }
    if out < s.carried {
        return 5;
    }
    0
}
