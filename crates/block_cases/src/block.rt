// A block of a step: what is heard in it, and what comes of it.
use cases::{Bits, Recipe, halves, hash};
use tau_lines::{Fields, echo};
use tau_state::report::{Told, leak_of, outcome_of};

/// What a block is given, and the seeds of the block after it.
#[derive(Clone, Copy)]
pub struct Sounds {
    pub near: [f32; 256],
    pub far: [f32; 256],
    pub near_seed: u64,
    pub far_seed: u64,
}

/// Near and far are noise. Near then has an echo, of so many samples as there are; the others are 0.0 in both.
pub fn heard(fields: &Fields, near_seed: u64, far_seed: u64, valid: usize) -> Sounds {
    let valid = valid.min(256);
    let mut near = [0.0f32; 256];
    let mut far = [0.0f32; 256];
    Recipe::of_halves([near_seed, fields[1], fields[2]]).fill(&mut near);
    Recipe::of_halves([far_seed, fields[4], fields[5]]).fill(&mut far);
    let next_near = hash(&near);
    let next_far = hash(&far);
    let (_, gain) = halves(fields[7]);
    echo(gain, &far, &mut near);
    near[valid..].fill(0.0);
    far[valid..].fill(0.0);
    Sounds {
        near,
        far,
        near_seed: next_near,
        far_seed: next_far,
    }
}

/// Of the last block its outcome and reason by their numbers, its leak's bits, its samples' hash and how many of its inverses' samples
/// went over.
#[derive(Clone, Copy)]
pub struct LastBlock {
    pub outcome: u64,
    pub leak: u64,
    pub hash: u64,
    pub reason: u64,
    pub overs: u64,
}

impl LastBlock {
    /// Where no block is run.
    pub fn none() -> LastBlock {
        LastBlock {
            outcome: 0,
            leak: 0,
            hash: hash(&[0.0f32; 256]),
            reason: 0,
            overs: 0,
        }
    }

    pub fn of(told: Told, samples: &[f32; 256]) -> LastBlock {
        let outcome = outcome_of(told.reason);
        LastBlock {
            outcome: u64::from(u32::from(outcome)),
            leak: leak_of(outcome).to_word(),
            hash: hash(samples),
            reason: u64::from(u32::from(told.reason)),
            overs: u64::from(told.overs),
        }
    }
}
