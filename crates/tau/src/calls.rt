// The public calls. A state goes in by value and comes back; the buffers are lent. A refused call writes nothing.
ghost use Rattle.std.specs.Prelude.{◌≡◌, length};
ghost use Rattle.tau_run.specs.Ran.{engine_of};
ghost use Rattle.tau.specs.Calls.{process_refusal, flush_refusal, answer_of, reported_of, process_of, flush_of};
ghost use Rattle.tau.specs.Promises.{Create, Process, Flush, Reset};

use tau_frame::{Framed, flush_block, run, stay, wait};
use tau_fresh::fresh::{clear_all, empty, fresh};
use tau_fresh::refusals::{create_refusal, flush_refusal, process_refusal, state_refusal};
use tau_state::report::{Last, Report, report_of};
use tau_state::state::TauCanceller;

// What creation and reset answer.
#[repr(C)]
#[derive(Clone, Copy)]
pub struct Started {
    pub refusal: u32,
    pub state: TauCanceller,
}

// What process and flush answer.
#[derive(Clone, Copy)]
pub struct Answer {
    pub refusal: u32,
    pub delivered: usize,
    pub state: TauCanceller,
    pub report: Report,
}

// The same before its report is made of it. The host library makes the report as numbers: with the enums in between the compiler would copy
// the state once more in each call.
#[derive(Clone, Copy)]
pub struct Unreported {
    pub refusal: u32,
    pub delivered: usize,
    pub state: TauCanceller,
    pub last: Last,
}

fn answer_of(u: Unreported) -> Answer
    ensures { result ≡ reported_of u }
{
    let state = u.state;
    let last = u.last;
    Answer {
        refusal: u.refusal,
        delivered: u.delivered,
        state,
        report: report_of(&state.mic, last),
    }
}

pub fn create(
    partitions: usize,
    suppress: bool,
    shadow: &mut [f64],
    output: &mut [f64],
    spectra: &mut [f64],
    powers: &mut [f64],
) -> Started
    ensures { Create partitions suppress shadow.old output.old spectra.old powers.old result shadow.new output.new spectra.new powers.new }
{
    let refusal = create_refusal(
        partitions,
        shadow.len(),
        output.len(),
        spectra.len(),
        powers.len(),
    );
    if refusal != 0 {
        return Started {
            refusal,
            state: empty(),
        };
    }
    clear_all(shadow, output, spectra, powers);
    Started {
        refusal: 0,
        state: fresh(partitions, suppress, 0, 0),
    }
}

pub fn reset(
    s: TauCanceller,
    shadow: &mut [f64],
    output: &mut [f64],
    spectra: &mut [f64],
    powers: &mut [f64],
) -> Started
    ensures { Reset (record { state = s; shadow = shadow.old; output = output.old; spectra = spectra.old; powers = powers.old }) result shadow.new output.new spectra.new powers.new }
{
    let refusal = state_refusal(s, shadow.len(), output.len(), spectra.len(), powers.len());
    if refusal != 0 {
        return Started { refusal, state: s };
    }
    clear_all(shadow, output, spectra, powers);
    let m = s.mic;
    Started {
        refusal: 0,
        state: fresh(s.partitions, s.suppress, m.transfers, m.divergence_resets),
    }
}

// A process over the state in place. Refused, it changes nothing; where no block is filled, its pairs wait.
fn process_in_place(
    refusal: u32,
    state: &mut TauCanceller,
    shadow: &mut [f64],
    output: &mut [f64],
    spectra: &mut [f64],
    powers: &mut [f64],
    near: &[f32],
    far: &[f32],
    out: &mut [f32],
) -> Framed
    requires { refusal ≡ process_refusal state.old (length shadow.old) (length output.old) (length spectra.old) (length powers.old) (length near.now) (length far.now) (length out.old) }
    ensures { record { answer = answer_of refusal result.delivered state.new result.last; shadow = shadow.new; output = output.new; spectra = spectra.new; powers = powers.new; out = out.new } ≡ process_of (engine_of state.old shadow.old output.old spectra.old powers.old) near.now far.now out.old }
{
    if refusal != 0 {
        return stay();
    }
    if state.carried + near.len() < 256 {
        return wait(state, near, far);
    }
    run(state, shadow, output, spectra, powers, near, far, out)
}

// `process` without its report.
pub fn process_unreported(
    s: TauCanceller,
    shadow: &mut [f64],
    output: &mut [f64],
    spectra: &mut [f64],
    powers: &mut [f64],
    near: &[f32],
    far: &[f32],
    out: &mut [f32],
) -> Unreported
    ensures { Process (record { state = s; shadow = shadow.old; output = output.old; spectra = spectra.old; powers = powers.old }) near.now far.now out.old (reported_of result) shadow.new output.new spectra.new powers.new out.new }
{
    let refusal = process_refusal(
        s,
        shadow.len(),
        output.len(),
        spectra.len(),
        powers.len(),
        near.len(),
        far.len(),
        out.len(),
    );
    // The state goes on in the answer: beside it, a call would take 3 KB more of the host's stack.
    let mut answer = Unreported {
        refusal,
        delivered: 0,
        state: s,
        last: Last::NoneRan,
    };
    let framed = process_in_place(
        refusal,
        &mut answer.state,
        shadow,
        output,
        spectra,
        powers,
        near,
        far,
        out,
    );
    answer.delivered = framed.delivered;
    answer.last = framed.last;
    answer
}

pub fn process(
    s: TauCanceller,
    shadow: &mut [f64],
    output: &mut [f64],
    spectra: &mut [f64],
    powers: &mut [f64],
    near: &[f32],
    far: &[f32],
    out: &mut [f32],
) -> Answer
    ensures { Process (record { state = s; shadow = shadow.old; output = output.old; spectra = spectra.old; powers = powers.old }) near.now far.now out.old result shadow.new output.new spectra.new powers.new out.new }
{
    answer_of(process_unreported(s, shadow, output, spectra, powers, near, far, out))
}

// A flush over the state in place. Refused, it changes nothing.
fn flush_in_place(
    refusal: u32,
    state: &mut TauCanceller,
    shadow: &mut [f64],
    output: &mut [f64],
    spectra: &mut [f64],
    powers: &mut [f64],
    out: &mut [f32],
) -> Framed
    requires { refusal ≡ flush_refusal state.old (length shadow.old) (length output.old) (length spectra.old) (length powers.old) (length out.old) }
    ensures { record { answer = answer_of refusal result.delivered state.new result.last; shadow = shadow.new; output = output.new; spectra = spectra.new; powers = powers.new; out = out.new } ≡ flush_of (engine_of state.old shadow.old output.old spectra.old powers.old) out.old }
{
    if refusal != 0 {
        return stay();
    }
    flush_block(state, shadow, output, spectra, powers, out)
}

// `flush` without its report.
pub fn flush_unreported(
    s: TauCanceller,
    shadow: &mut [f64],
    output: &mut [f64],
    spectra: &mut [f64],
    powers: &mut [f64],
    out: &mut [f32],
) -> Unreported
    ensures { Flush (record { state = s; shadow = shadow.old; output = output.old; spectra = spectra.old; powers = powers.old }) out.old (reported_of result) shadow.new output.new spectra.new powers.new out.new }
{
    let refusal = flush_refusal(
        s,
        shadow.len(),
        output.len(),
        spectra.len(),
        powers.len(),
        out.len(),
    );
    let mut answer = Unreported {
        refusal,
        delivered: 0,
        state: s,
        last: Last::NoneRan,
    };
    let framed = flush_in_place(
        refusal,
        &mut answer.state,
        shadow,
        output,
        spectra,
        powers,
        out,
    );
    answer.delivered = framed.delivered;
    answer.last = framed.last;
    answer
}

pub fn flush(
    s: TauCanceller,
    shadow: &mut [f64],
    output: &mut [f64],
    spectra: &mut [f64],
    powers: &mut [f64],
    out: &mut [f32],
) -> Answer
    ensures { Flush (record { state = s; shadow = shadow.old; output = output.old; spectra = spectra.old; powers = powers.old }) out.old result shadow.new output.new spectra.new powers.new out.new }
{
    answer_of(flush_unreported(s, shadow, output, spectra, powers, out))
}
