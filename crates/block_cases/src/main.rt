// Runs Tau's blocks on a list of them, and compares with what the Rust gave (oracle/block_cases.rs). A line is a step on what the lines
// before it left: the state and the four buffers are kept from line to line.
//
// A line has 41 fields. A half is 8 digits of a field. The letters are those in steps.rt, and what fields 0 to 7 are for each.
//
//     8         the outcome of the last block: 0 none run, 1 no move, 2 a rescue, 3 a move
//     9         its leak, and 0 where it is no move
//     10        the hash of what it delivers, all 256 samples; where none is run, of zeros
//     11 to 38  the state and three buffers, as many of a buffer's numbers as the partitions have (crate `tau_lines`)
//     39        halves: the reason of the last block, 0 to 9 as `u32::from` has them; and its overs
//     40        the hash of the powers, as many as the partitions have
//
// A field without a use is 0.
#![tactic(auto)]

mod block;
mod steps;

use cases::{Case, Compared, Program, hash, joined};
use steps::{begun, done};
use tau_lines::{Buffers, Fields, compared, fresh};
use tau_state::state::TauCanceller;

#[derive(Drop)]
struct Engine {
    state: TauCanceller,
    buffers: Buffers,
}

impl Program<41> for Engine {
    fn answer(&mut self, case: &Case<41>) -> Option<Compared> {
        self.step(
            case.letter,
            &case.head(),
            [case.fields[39], case.fields[40]],
        )
    }
}

impl Engine {
    // A step beside what the list has for it: fields 39 and 40 first, then the others in their order.
    fn step(&mut self, letter: u8, fields: &Fields, last: [u64; 2]) -> Option<Compared> {
        let state = begun(letter, fields, &self.state);
        let partitions = state.partitions;
        if 32 < partitions {
            return None;
        }
        self.state = state;
        let weights = 514 * partitions;
        let mut lent = self
            .buffers
            .lend(weights, weights, weights, 257 * partitions)?;
        let last_block = done(letter, fields, &mut self.state, &mut lent)?;
        let answer = Compared::first(
            &[
                joined(last_block.reason, last_block.overs),
                hash(lent.powers),
            ],
            &last,
        )
        .or(Compared::first(
            &[last_block.outcome, last_block.leak, last_block.hash],
            &fields[8..11],
        ))
        .or(compared(fields, &self.state, &lent));
        Some(answer)
    }
}

fn main(rt: HostRuntime) {
    let mut engine = Engine {
        state: fresh(),
        buffers: Buffers::new(),
    };
    cases::replay(
        "block_cases",
        &mut engine,
        &mut rt.stdin(),
        &mut rt.stdout(),
    );
}
