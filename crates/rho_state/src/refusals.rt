// The tests of a call, in the order of document 01. Each answers why the call is refused.
#![tactic(auto, using(std::proofs::lemmas::Bool::Decides::nat_tests), unfolding(laws::specs::Choice::pick, crate::specs::Refusals::settings_of, crate::specs::Refusals::sized_of, crate::specs::Refusals::ranged_of, crate::specs::Refusals::create_refusal, crate::specs::Refusals::state_refusal, crate::specs::Refusals::pairs_refusal, crate::specs::Refusals::process_refusal))]

ghost use Rattle.std.specs.Prelude.{◌≡◌};
ghost use Rattle.laws.specs.Choice.{pick};
ghost use Rattle.refusal.specs.Refusal.{number_in};
ghost use Rattle.rho_state.specs.Refusals.{settings_of, sized_of, ranged_of, create_refusal, state_refusal, pairs_refusal, process_refusal};

use crate::state::{RhoCanceller, taps_of};
use refusal::Refusal;

fn settings_fit(sample_rate: u32, tail_ms: u32) -> bool
    ensures { result ≡ settings_of sample_rate tail_ms }
{
    (8000..=48000).contains(&sample_rate)
        && tail_ms <= 1000
        && taps_of(sample_rate, tail_ms) <= 8192
}

fn in_range(s: &RhoCanceller) -> bool
    ensures { result ≡ ranged_of s.now }
{
    (1..=8192).contains(&s.taps)
        && s.pos < s.taps
        && (120..=720).contains(&s.hangover_samples)
        && s.hangover_remaining <= s.hangover_samples
}

fn check_sizes(taps: u64, weights: usize, history: usize) -> Result<(), Refusal>
    ensures { number_in result ≡ pick (sized_of taps weights history) 0 2 }
{
    if weights as u64 == taps && history as u64 == taps {
        Ok(())
    } else {
        Err(Refusal::WrongLength)
    }
}

pub fn check_create(
    sample_rate: u32,
    tail_ms: u32,
    weights: usize,
    history: usize,
) -> Result<(), Refusal>
    ensures { number_in result ≡ create_refusal sample_rate tail_ms weights history }
{
    if !settings_fit(sample_rate, tail_ms) {
        return Err(Refusal::Settings);
    }
    check_sizes(taps_of(sample_rate, tail_ms), weights, history)
}

pub fn check_state(s: &RhoCanceller, weights: usize, history: usize) -> Result<(), Refusal>
    ensures { number_in result ≡ state_refusal s.now weights history }
{
    if !in_range(s) {
        return Err(Refusal::StateOutOfRange);
    }
    check_sizes(s.taps as u64, weights, history)
}

fn check_pairs(near: usize, far: usize, out: usize) -> Result<(), Refusal>
    ensures { number_in result ≡ pairs_refusal near far out }
{
    if near != far {
        return Err(Refusal::UnequalLengths);
    }
    if 4096 < near {
        return Err(Refusal::TooManyPairs);
    }
    if out < near {
        return Err(Refusal::NoRoom);
    }
    Ok(())
}

pub fn check_process(
    s: &RhoCanceller,
    weights: usize,
    history: usize,
    near: usize,
    far: usize,
    out: usize,
) -> Result<(), Refusal>
    ensures { number_in result ≡ process_refusal s.now weights history near far out }
{
    check_state(s, weights, history)?;
    check_pairs(near, far, out)
}
