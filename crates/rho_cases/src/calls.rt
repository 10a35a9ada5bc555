// The calls, by their letters:
//
//     c  create      p  process      f  flush      r  reset
//     s  no call: the state is set to that of the line, and the buffers are made, the weights by fields 0 to 2 and the history by 3 to 5
//     w  no call: up to six weights are set, by fields 0 to 5
use cases::{Bits, Case, Mark, Noise, Recipe, halves, hash};
use refusal::{Refusal, number};
use rho_state::state::{Report, RhoCanceller};

// The most samples that a line gives or takes: a few more than a call may have.
const SAMPLES: usize = 4104;

// What an output buffer holds before the call.
const BEFORE: Noise = Noise {
    seed: 1,
    base: 0x3f80_0000,
    mask: 0x807f_ffff,
};

// What a line comes to, but for the state and the lent buffers.
#[derive(Clone, Copy, Default)]
pub struct Got {
    pub refusal: u32,
    pub delivered: usize,
    pub report: Report,
    pub output: Output,
}

// The output buffer: its hash, and the bits of the samples at the places of the first pair and of the last.
#[derive(Clone, Copy, Default)]
pub struct Output {
    pub hash: u64,
    pub first: u64,
    pub last: u64,
}

impl Got {
    // Creation and reset deliver and report nothing.
    fn started<T>(answer: &Result<T, Refusal>) -> Got {
        Got {
            refusal: number(answer),
            ..Got::default()
        }
    }

    fn answered(delivered: Result<usize, Refusal>, report: Report, output: Output) -> Got {
        Got {
            refusal: number(&delivered),
            delivered: delivered.unwrap_or(0),
            report,
            output,
        }
    }
}

// Nothing where no call has the letter, or a length is too large.
pub fn called(
    case: &Case<22>,
    state: &mut RhoCanceller,
    weights: &mut [f32],
    history: &mut [f32],
) -> Option<Got> {
    match case.letter {
        b'c' => Some(created(case, state, weights, history)),
        b'p' => processed(case, state, weights, history),
        b'f' => {
            let delivered = rho::flush(state, weights, history);
            Some(Got::answered(delivered, state.report(), Output::default()))
        }
        b'r' => Some(Got::started(&rho::reset(state, weights, history))),
        b's' => {
            near_recipe(case).fill(weights);
            far_recipe(case).fill(history);
            *state = given(case);
            Some(Got::default())
        }
        b'w' => {
            for field in &case.fields[..6] {
                Mark::of_word(*field).put(weights);
            }
            Some(Got::default())
        }
        _ => None,
    }
}

fn near_recipe(case: &Case<22>) -> Recipe {
    Recipe::of_halves([case.fields[0], case.fields[1], case.fields[2]])
}

fn far_recipe(case: &Case<22>) -> Recipe {
    Recipe::of_halves([case.fields[3], case.fields[4], case.fields[5]])
}

// A refused creation leaves the state all zero.
fn created(
    case: &Case<22>,
    state: &mut RhoCanceller,
    weights: &mut [f32],
    history: &mut [f32],
) -> Got {
    let (rate, tail) = halves(case.fields[7]);
    let created = rho::create(rate, tail, weights, history);
    let got = Got::started(&created);
    *state = created.unwrap_or_default();
    got
}

// The output buffer holds noise before, so that it shows where nothing is written.
fn processed(
    case: &Case<22>,
    state: &mut RhoCanceller,
    weights: &mut [f32],
    history: &mut [f32],
) -> Option<Got> {
    let (near_len, far_len) = halves(case.fields[7]);
    let near_len = near_len as usize;
    let far_len = far_len as usize;
    let room = case.fields[8] as usize;
    if SAMPLES < near_len || SAMPLES < far_len || SAMPLES < room {
        return None;
    }
    let mut near = [0.0f32; SAMPLES];
    let mut far = [0.0f32; SAMPLES];
    let mut out = [0.0f32; SAMPLES];
    near_recipe(case).fill(&mut near);
    far_recipe(case).fill(&mut far);
    let near = &near[..near_len];
    let far = &far[..far_len];
    let out = &mut out[..room];
    BEFORE.fill(out);
    let delivered = rho::process(state, weights, history, near, far, out);
    let output = Output {
        hash: hash(out),
        first: shown(out, 1),
        last: shown(out, near.len()),
    };
    Some(Got::answered(delivered, state.report(), output))
}

// The bits of a sample, counted from 1, and 0 where there is none.
fn shown(out: &[f32], n: usize) -> u64 {
    n.checked_sub(1)
        .and_then(|k| out.get(k))
        .map_or(0, |sample| sample.to_word())
}

// The state that the line gives.
fn given(case: &Case<22>) -> RhoCanceller {
    let (hangover_samples, hangover_remaining) = halves(case.fields[14]);
    RhoCanceller {
        taps: case.fields[12] as usize,
        pos: case.fields[13] as usize,
        hangover_samples,
        hangover_remaining,
        near_power: f64::from_word(case.fields[15]),
        residual_power: f64::from_word(case.fields[16]),
        divergence_resets: case.fields[17],
    }
}
