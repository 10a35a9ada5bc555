// The public calls. The host keeps the state, and lends it with the buffers. A refused call writes nothing.
#![tactic(auto, using(std::proofs::lemmas::Bool::Decides::nat_tests, rho_state::proofs::Accepted::accepted), unfolding(laws::specs::Choice::pick, crate::specs::Calls::create_of, crate::specs::Calls::reset_of, crate::specs::Calls::flush_of, crate::specs::Calls::process_of))]

ghost use Rattle.std.specs.Prelude.{◌≡◌, ◌++◌, ◌<◌, ◌≤◌, length, drop};
ghost use Rattle.refusal.specs.Refusal.{number_in};
ghost use Rattle.rho.specs.Pairs.{pairs_of};
ghost use Rattle.rho.specs.Calls.{started_of, answered_of};
ghost use Rattle.rho.specs.Promises.{Create, Process, Flush, Reset};

use refusal::{Refusal, number};
use rho_sample::sample::step;
use rho_state::refusals::{check_create, check_process, check_state};
use rho_state::state::{Report, RhoCanceller, hangover_of};

// What C is answered by creation and reset.
#[repr(C)]
#[derive(Clone, Copy)]
pub struct Started {
    pub refusal: u32,
    pub state: RhoCanceller,
}

// A refused creation has no state to give back.
impl From<Result<RhoCanceller, Refusal>> for Started {
    ghost from_gives = { λ created started. started ≡ started_of created };

    fn from(created: Result<RhoCanceller, Refusal>) -> Started {
        Started {
            refusal: number(&created),
            state: created.unwrap_or_default(),
        }
    }
}

// What C is answered by process and flush.
#[repr(C)]
#[derive(Clone, Copy)]
pub struct Answer {
    pub refusal: u32,
    pub delivered: usize,
    pub state: RhoCanceller,
    pub report: Report,
}

impl Answer {
    pub fn new(delivered: Result<usize, Refusal>, state: RhoCanceller) -> Answer
        ensures { result ≡ answered_of delivered state }
    {
        Answer {
            refusal: number(&delivered),
            delivered: delivered.unwrap_or(0),
            state,
            report: state.report(),
        }
    }
}

pub fn create(
    sample_rate: u32,
    tail_ms: u32,
    weights: &mut [f32],
    history: &mut [f32],
) -> Result<RhoCanceller, Refusal>
    ensures { Create sample_rate tail_ms weights.old history.old (started_of result) weights.new history.new }
{
    check_create(sample_rate, tail_ms, weights.len(), history.len())?;
    weights.fill(0.0);
    history.fill(0.0);
    Ok(RhoCanceller::fresh(weights.len(), hangover_of(sample_rate), 0))
}

pub fn reset(
    state: &mut RhoCanceller,
    weights: &mut [f32],
    history: &mut [f32],
) -> Result<(), Refusal>
    ensures { Reset (record { state = state.old; weights = weights.old; history = history.old }) (record { refusal = number_in result; state = state.new }) weights.new history.new }
{
    check_state(state, weights.len(), history.len())?;
    weights.fill(0.0);
    history.fill(0.0);
    *state = RhoCanceller::fresh(state.taps, state.hangover_samples, state.divergence_resets);
    Ok(())
}

// Delivers nothing, since every pair is answered at once, and takes no output buffer. It still tests what it is given.
pub fn flush(state: &RhoCanceller, weights: &[f32], history: &[f32]) -> Result<usize, Refusal>
    ensures { Flush (record { state = state.now; weights = weights.now; history = history.now }) (answered_of result state.now) }
{
    check_state(state, weights.len(), history.len()).map(|()| 0)
}

// Every pair in turn.
fn run(
    state: &mut RhoCanceller,
    weights: &mut [f32],
    history: &mut [f32],
    near: &[f32],
    far: &[f32],
    out: &mut [f32],
)
    requires weights_len { length weights.old ≡ state.old.taps }
    requires history_len { length history.old ≡ state.old.taps }
    requires pos_lt_taps { state.old.pos < state.old.taps }
    requires far_len { length near.now ≡ length far.now }
    requires near_in_bounds { length near.now ≤ length out.old }
    ensures engine_after { record { state = state.new; weights = weights.new; history = history.new } ≡ (pairs_of (record { state = state.old; weights = weights.old; history = history.old }) near.now far.now).engine }
    ensures out_after { out.new ≡ (pairs_of (record { state = state.old; weights = weights.old; history = history.old }) near.now far.now).samples ++ drop (length near.now) out.old }
{
    for k in 0..near.len() {
        let x = numbers::finite_or_zero(near[k]);
        let y = numbers::finite_or_zero(far[k]);
        out[k] = step(state, weights, history, x, y);
    }
}

// How many samples it delivered: one for each pair.
pub fn process(
    state: &mut RhoCanceller,
    weights: &mut [f32],
    history: &mut [f32],
    near: &[f32],
    far: &[f32],
    out: &mut [f32],
) -> Result<usize, Refusal>
    ensures { Process (record { state = state.old; weights = weights.old; history = history.old }) near.now far.now out.old (answered_of result state.new) weights.new history.new out.new }
{
    check_process(
        state,
        weights.len(),
        history.len(),
        near.len(),
        far.len(),
        out.len(),
    )?;
    run(state, weights, history, near, far, out);
    Ok(near.len())
}
