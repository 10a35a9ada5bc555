// Runs Tau's calls on a list of them, and compares with what the Rust gave (oracle/tau_cases.rs). A line is a call on what the lines
// before it left: the state and the four buffers are kept from line to line.
//
// A line has 47 fields. A half is 8 digits of a field. The letters are those in calls.rt, and what fields 0 to 7 are for each.
//
//     8         halves, the report: whether there is double talk, and the outcome: 0 no block run, 1 no move, 2 a rescue, 3 a move
//     9         the report: the move's leak, and 0 where it is no move
//     10        the hash of what is lent of the output buffer
//     11 to 38  the state and three buffers, of these what is lent (crate `tau_lines`)
//     39        halves: how much is lent of the shadow weights, and of the output weights
//     40        halves: how much is lent of the far spectra, and of the output buffer
//     41        halves: the refusal, and the number of delivered samples
//     42, 43    the report: the transfers, and the resets
//     44        halves, the report: the reason, 0 to 9 as `u32::from` has them; and the overs
//     45, 46    how much is lent of the powers, and the hash of it
//
// A field without a use is 0.
#![tactic(auto)]

mod calls;

use calls::called;
use cases::{Case, Compared, Program, halves, hash};
use tau_lines::{Buffers, compared, fresh};
use tau_state::state::TauCanceller;

#[derive(Drop)]
struct Engine {
    state: TauCanceller,
    buffers: Buffers,
}

impl Program<47> for Engine {
    // Fields 41 to 44 first, then 46, then 8 to 38.
    fn answer(&mut self, case: &Case<47>) -> Option<Compared> {
        let fields = case.head();
        let (shadow, output) = halves(case.fields[39]);
        let (spectra, room) = halves(case.fields[40]);
        let powers = case.fields[45] as usize;
        let mut lent = self
            .buffers
            .lend(shadow as usize, output as usize, spectra as usize, powers)?;
        let got = called(
            case.letter,
            &fields,
            room as usize,
            &mut self.state,
            &mut lent,
        )?;
        let answer = Compared::first(&got.answer(), &case.fields[41..45])
            .or(Compared::first(&[hash(lent.powers)], &case.fields[46..]))
            .or(Compared::first(&got.told(), &fields[8..11]))
            .or(compared(&fields, &self.state, &lent));
        Some(answer)
    }
}

fn main(rt: HostRuntime) {
    let mut engine = Engine {
        state: fresh(),
        buffers: Buffers::new(),
    };
    cases::replay("tau_cases", &mut engine, &mut rt.stdin(), &mut rt.stdout());
}
