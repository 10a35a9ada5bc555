// Tau. C has no enum with a value, so the report comes as numbers: what else there is, is as the functions below answer it.
ghost use Rattle.std.specs.Prelude.{◌≡◌};
ghost use Rattle.tau.specs.Calls.{reported_of};
ghost use Rattle.tau.specs.Promises.{Create, Reset};
ghost use Rattle.capi.specs.Tau.{numbers_of};
ghost use Rattle.capi.specs.Promises.{TauProcess, TauFlush};

use tau::{Started, Unreported};
use tau_state::report::{leak_of, number, outcome_of, overs_of, reason_number, reason_of};
use tau_state::state::TauCanceller;

// What process and flush answer, and then their report. The outcome: 0 no block run, 1 no move, 2 a rescue, 3 a move. The reason: 0 to 9,
// as `reason_number` has them. The overs: how many samples of the last block's inverse transforms went over. The leak is that of a move, and
// 0.0 where there is none.
#[repr(C)]
#[derive(Clone, Copy)]
pub struct TauAnswer {
    pub refusal: u32,
    pub delivered: usize,
    pub state: TauCanceller,
    pub transfers: u64,
    pub divergence_resets: u64,
    pub double_talk: bool,
    pub outcome: u32,
    pub reason: u32,
    pub overs: u32,
    pub leak: f64,
}

// Inlined, and the two that call it, as every copy of an answer takes 14 KB of the host's stack.
#[inline(always)]
fn numbers_of(a: Unreported) -> TauAnswer
    ensures { result ≡ numbers_of (reported_of a) }
{
    let state = a.state;
    let mic = state.mic;
    let detector = mic.detector;
    let last = a.last;
    let reason = reason_of(last);
    let outcome = outcome_of(reason);
    TauAnswer {
        refusal: a.refusal,
        delivered: a.delivered,
        state,
        transfers: mic.transfers,
        divergence_resets: mic.divergence_resets,
        double_talk: detector.double_talk,
        outcome: number(outcome),
        reason: reason_number(reason),
        overs: overs_of(last),
        leak: leak_of(outcome),
    }
}

pub fn aspeyruni_tau_create(
    partitions: usize,
    suppress: bool,
    shadow: &mut [f64],
    output: &mut [f64],
    spectra: &mut [f64],
    powers: &mut [f64],
) -> Started
    ensures { Create partitions suppress shadow.old output.old spectra.old powers.old result shadow.new output.new spectra.new powers.new }
{
    tau::create(partitions, suppress, shadow, output, spectra, powers)
}

#[inline(always)]
pub fn aspeyruni_tau_process(
    s: TauCanceller,
    shadow: &mut [f64],
    output: &mut [f64],
    spectra: &mut [f64],
    powers: &mut [f64],
    near: &[f32],
    far: &[f32],
    out: &mut [f32],
) -> TauAnswer
    ensures { TauProcess (record { state = s; shadow = shadow.old; output = output.old; spectra = spectra.old; powers = powers.old }) near.now far.now out.old result shadow.new output.new spectra.new powers.new out.new }
{
    numbers_of(tau::process_unreported(s, shadow, output, spectra, powers, near, far, out))
}

#[inline(always)]
pub fn aspeyruni_tau_flush(
    s: TauCanceller,
    shadow: &mut [f64],
    output: &mut [f64],
    spectra: &mut [f64],
    powers: &mut [f64],
    out: &mut [f32],
) -> TauAnswer
    ensures { TauFlush (record { state = s; shadow = shadow.old; output = output.old; spectra = spectra.old; powers = powers.old }) out.old result shadow.new output.new spectra.new powers.new out.new }
{
    numbers_of(tau::flush_unreported(s, shadow, output, spectra, powers, out))
}

pub fn aspeyruni_tau_reset(
    s: TauCanceller,
    shadow: &mut [f64],
    output: &mut [f64],
    spectra: &mut [f64],
    powers: &mut [f64],
) -> Started
    ensures { Reset (record { state = s; shadow = shadow.old; output = output.old; spectra = spectra.old; powers = powers.old }) result shadow.new output.new spectra.new powers.new }
{
    tau::reset(s, shadow, output, spectra, powers)
}
