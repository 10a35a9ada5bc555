// The steps, by their letters:
//
//     n  a new engine: the buffers and the state's arrays are as creation leaves them, and the other numbers of the state those of the
//        line, fields 11 to 27
//     s  these numbers alone are set
//     a  an array is made. 0 to 4: how; 5: which, from 0 on in the order of fields 28 to 38, and 11 the powers (crate `tau_lines`)
//     b  blocks of a process call. 0 to 2, 3 to 5: how near and far of the first one are made (block.rt); 6, halves: 256, and how many
//        blocks; 7: the bits of the echo's gain
//     f  the block of a flush: the same, with the number of its samples for 256, and with 1
ghost use Rattle.std.specs.Prelude.{◌≤◌};

use crate::block::{LastBlock, Sounds, heard};
use cases::halves;
use tau_block::MicBlock;
use tau_lines::{Fields, Lent, fresh, remake, set};
use tau_state::state::TauCanceller;

/// The state that a step starts from.
pub fn begun(letter: u8, fields: &Fields, state: &TauCanceller) -> TauCanceller {
    let mut begun = match letter {
        b'n' => fresh(),
        _ => *state,
    };
    if let b'n' | b's' = letter {
        set(fields, &mut begun);
    }
    begun
}

/// What the last block of a step tells, or nothing where there is no such step.
pub fn done(
    letter: u8,
    fields: &Fields,
    state: &mut TauCanceller,
    lent: &mut Lent,
) -> Option<LastBlock> {
    match letter {
        b'n' => clear(lent),
        b's' => {}
        b'a' => remake(fields, state, lent)?,
        b'b' => return run(fields, state, true, lent),
        b'f' => return run(fields, state, false, lent),
        _ => return None,
    }
    Some(LastBlock::none())
}

fn clear(lent: &mut Lent) {
    lent.shadow.fill(0.0);
    lent.output.fill(0.0);
    lent.spectra.fill(0.0);
    lent.powers.fill(0.0);
}

// The noise of a block after the first has the hashes of the noise before as its seeds.
fn run(
    fields: &Fields,
    state: &mut TauCanceller,
    adapt: bool,
    lent: &mut Lent,
) -> Option<LastBlock> {
    let (valid, blocks) = halves(fields[6]);
    let valid = valid as usize;
    if 256 < valid {
        return None;
    }
    let mut near_seed = fields[0];
    let mut far_seed = fields[3];
    let mut last = LastBlock::none();
    for _ in 0..blocks {
        let sounds = heard(fields, near_seed, far_seed, valid);
        near_seed = sounds.near_seed;
        far_seed = sounds.far_seed;
        last = block(state, &sounds, valid, adapt, lent)?;
    }
    Some(last)
}

// One block, where the state and what is lent are such that it may be run.
fn block(
    state: &mut TauCanceller,
    sounds: &Sounds,
    valid: usize,
    adapt: bool,
    lent: &mut Lent,
) -> Option<LastBlock>
    requires { valid ≤ 256 }
{
    let partitions = state.partitions;
    if valid < 1 || 32 < partitions || partitions <= state.far.head {
        return None;
    }
    let weights = 514 * partitions;
    if lent.shadow.len() != weights || lent.output.len() != weights {
        return None;
    }
    if lent.spectra.len() != weights || lent.powers.len() != 257 * partitions {
        return None;
    }
    let given = MicBlock {
        near: &sounds.near,
        valid,
        adapt,
    };
    let mut out = [0.0f32; 256];
    let told = tau_run::run_block(
        state,
        &sounds.far,
        &given,
        &mut out,
        lent.shadow,
        lent.output,
        lent.spectra,
        lent.powers,
    );
    Some(LastBlock::of(told, &out))
}
