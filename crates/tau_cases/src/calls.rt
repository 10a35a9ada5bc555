// The calls, by their letters:
//
//     c  create. 0: the partitions; 1: whether to suppress
//     p  process. 0 to 2, 3 to 5: how near and far are made (crate `tau_lines`); 6, halves: their lengths; 7: the bits of the gain of
//        far's echo in near
//     f  flush
//     r  reset
//     s  no call: the numbers of the state that are in no array are set to those of the line, fields 11 to 27
//     a  no call: an array of the state, or what is lent of a buffer, is made. 0 to 4: how; 5: which, from 0 on in the order of fields
//        28 to 38, and 11 the powers (crate `tau_lines`)
use cases::{Bits, Noise, Recipe, halves, hash, joined};
use tau::{Answer, Started};
use tau_lines::{Fields, Lent, echo, remake, set};
use tau_state::report::{leak_of, reason_of};
use tau_state::state::TauCanceller;

/// What a call answers, but for the state and the lent buffers, and the hash of the output buffer. Creation and reset deliver and report
/// nothing.
#[derive(Clone, Copy, Default)]
pub struct Got {
    pub refusal: u32,
    pub delivered: usize,
    pub transfers: u64,
    pub divergence_resets: u64,
    pub double_talk: bool,
    pub outcome: u32,
    pub leak: u64,
    pub reason: u32,
    pub overs: u32,
    pub hash: u64,
}

impl Got {
    /// Fields 41 to 44.
    pub fn answer(&self) -> [u64; 4] {
        [
            joined(u64::from(self.refusal), self.delivered as u64),
            self.transfers,
            self.divergence_resets,
            joined(u64::from(self.reason), u64::from(self.overs)),
        ]
    }

    /// Fields 8 to 10.
    pub fn told(&self) -> [u64; 3] {
        [
            joined(u64::from(self.double_talk), u64::from(self.outcome)),
            self.leak,
            self.hash,
        ]
    }
}

/// Nothing where no call has the letter, or a length is too large.
pub fn called(
    letter: u8,
    fields: &Fields,
    room: usize,
    state: &mut TauCanceller,
    lent: &mut Lent,
) -> Option<Got> {
    match letter {
        b'c' => Some(created(fields, state, lent)),
        b'p' => processed(fields, room, state, lent),
        b'f' => flushed(room, state, lent),
        b'r' => Some(started(
            tau::reset(*state, lent.shadow, lent.output, lent.spectra, lent.powers),
            state,
        )),
        b's' => {
            set(fields, state);
            Some(Got::default())
        }
        b'a' => {
            remake(fields, state, lent)?;
            Some(Got::default())
        }
        _ => None,
    }
}

fn created(fields: &Fields, state: &mut TauCanceller, lent: &mut Lent) -> Got {
    let partitions = fields[0] as usize;
    let suppress = fields[1] != 0;
    started(
        tau::create(
            partitions,
            suppress,
            lent.shadow,
            lent.output,
            lent.spectra,
            lent.powers,
        ),
        state,
    )
}

fn processed(
    fields: &Fields,
    room: usize,
    state: &mut TauCanceller,
    lent: &mut Lent,
) -> Option<Got> {
    let (near_len, far_len) = halves(fields[6]);
    let (_, gain) = halves(fields[7]);
    let mut near = [0.0f32; 4104];
    let mut far = [0.0f32; 4104];
    let mut out = stirred();
    Recipe::of_halves([fields[0], fields[1], fields[2]]).fill(&mut near);
    Recipe::of_halves([fields[3], fields[4], fields[5]]).fill(&mut far);
    echo(gain, &far, &mut near);
    let near = near.get(..near_len as usize)?;
    let far = far.get(..far_len as usize)?;
    let out = out.get_mut(..room)?;
    let answer = tau::process(
        *state,
        lent.shadow,
        lent.output,
        lent.spectra,
        lent.powers,
        near,
        far,
        out,
    );
    Some(answered(answer, out, state))
}

fn flushed(room: usize, state: &mut TauCanceller, lent: &mut Lent) -> Option<Got> {
    let mut out = stirred();
    let out = out.get_mut(..room)?;
    let answer = tau::flush(
        *state,
        lent.shadow,
        lent.output,
        lent.spectra,
        lent.powers,
        out,
    );
    Some(answered(answer, out, state))
}

// The output buffer holds noise before, so that it shows where nothing is written.
fn stirred() -> [f32; 4104] {
    let mut out = [0.0f32; 4104];
    let noise = Noise {
        seed: 1,
        base: 0x3f80_0000,
        mask: 0x807f_ffff,
    };
    noise.fill(&mut out);
    out
}

fn answered(answer: Answer, out: &[f32], state: &mut TauCanceller) -> Got {
    *state = answer.state;
    let report = answer.report;
    let outcome = report.outcome;
    Got {
        refusal: answer.refusal,
        delivered: answer.delivered,
        transfers: report.transfers,
        divergence_resets: report.divergence_resets,
        double_talk: report.double_talk,
        outcome: u32::from(outcome),
        leak: leak_of(outcome).to_word(),
        reason: u32::from(reason_of(report.last)),
        overs: report.overs,
        hash: hash(out),
    }
}

fn started(started: Started, state: &mut TauCanceller) -> Got {
    *state = started.state;
    Got {
        refusal: started.refusal,
        ..Got::default()
    }
}
