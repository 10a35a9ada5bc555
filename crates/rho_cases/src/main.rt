// Runs Rho's calls on a list of them, and compares with what the Rust gave (oracle/rho_cases.rs). A line is a call on what the lines
// before it left: the state and both buffers are kept from line to line.
//
// A line has 22 fields. A half is 8 digits of a field.
//
//     0 to 2    how near is made (`cases::Recipe`)
//     3 to 5    how far is made
//     6         halves: how much is lent of the weights, and of the history
//     7         halves: the lengths of near and far; for create the rate and the tail
//     8         how much is lent of the output buffer
//     9         halves: the refusal, and the number of delivered samples
//     10, 11    the report: the resets, and whether there is double talk
//     12 to 17  the state: taps, pos, the freeze and what is left of it as halves, the two powers, the resets
//     18 to 20  the hashes of the weights, the history and the output buffer, of what is lent
//     21        halves, for a reader to look at: the samples that then stand at the first pair's place and at the last one's, and 0
//               where there is no such place
//
// The letters are those in calls.rt. A field without a use is 0. A power is the bits of an f64, a sample those of an f32, and every
// NaN the same.
#![tactic(auto)]

mod calls;

use calls::{Got, called};
use cases::{Bits, Case, Compared, Program, halves, hash, joined};
use rho_state::state::RhoCanceller;

#[derive(Drop)]
struct Engine {
    state: RhoCanceller,
    weights: [f32; 8200],
    history: [f32; 8200],
}

impl Program<22> for Engine {
    fn answer(&mut self, case: &Case<22>) -> Option<Compared> {
        let Engine {
            state,
            weights,
            history,
        } = self;
        let (taps, lags) = halves(case.fields[6]);
        let weights = weights.get_mut(..taps as usize)?;
        let history = history.get_mut(..lags as usize)?;
        let got = called(case, state, weights, history)?;
        let answer = numbers_of(&got, state, hash(weights), hash(history));
        Some(Compared::first(&answer, &case.fields[9..]))
    }
}

fn main(rt: HostRuntime) {
    let mut engine = Engine {
        state: RhoCanceller::default(),
        weights: [0.0; 8200],
        history: [0.0; 8200],
    };
    cases::replay("rho_cases", &mut engine, &mut rt.stdin(), &mut rt.stdout());
}

// Fields 9 to 21.
fn numbers_of(got: &Got, state: &RhoCanceller, weights: u64, history: u64) -> [u64; 13] {
    [
        joined(u64::from(got.refusal), got.delivered as u64),
        got.report.divergence_resets,
        u64::from(got.report.double_talk),
        state.taps as u64,
        state.pos as u64,
        joined(
            u64::from(state.hangover_samples),
            u64::from(state.hangover_remaining),
        ),
        state.near_power.to_word(),
        state.residual_power.to_word(),
        state.divergence_resets,
        weights,
        history,
        got.output.hash,
        joined(got.output.first, got.output.last),
    ]
}
