// TauCanceller over bytes: what the program does between a read and a write, with no reading and no writing in it.
//
// A capture's bytes go in and the delivered samples' bytes come out. The calls refuse as TauCanceller's own do, and a refused one writes
// nothing.
#![tactic(auto)]

mod programs;

ghost use Rattle.capture.specs.Promises.{Feed, Finish};

pub use programs::Engine;
use tau::Answer;
use tau_state::state::TauCanceller;

// The whole pairs of `held`, at most 4,096 of them, are processed. What they deliver stands at the front of `bytes`, four a sample.
// These two take lent buffers of any length, as TauCanceller's own calls do; `Engine` has them beside the state.
pub fn feed(
    s: TauCanceller,
    shadow: &mut [f64],
    output: &mut [f64],
    spectra: &mut [f64],
    powers: &mut [f64],
    held: &[u8],
    bytes: &mut [u8],
) -> Answer
    ensures { Feed (record { state = s; shadow = shadow.old; output = output.old; spectra = spectra.old; powers = powers.old }) held.now bytes.old result shadow.new output.new spectra.new powers.new bytes.new }
{
    let taken = &held[..held.len().min(32768)];
    let pairs = wire::whole_pairs(taken);
    let mut near = [0.0f32; 4096];
    let mut far = [0.0f32; 4096];
    wire::read_near(taken, &mut near);
    wire::read_far(taken, &mut far);
    let mut out = [0.0f32; 4096];
    let room = (bytes.len() / 4).min(4096);
    let answer = tau::process(
        s,
        shadow,
        output,
        spectra,
        powers,
        &near[..pairs],
        &far[..pairs],
        &mut out[..room],
    );
    wire::write_samples(&out[..answer.delivered], bytes);
    answer
}

// What waits for its block is flushed.
pub fn finish(
    s: TauCanceller,
    shadow: &mut [f64],
    output: &mut [f64],
    spectra: &mut [f64],
    powers: &mut [f64],
    bytes: &mut [u8],
) -> Answer
    ensures { Finish (record { state = s; shadow = shadow.old; output = output.old; spectra = spectra.old; powers = powers.old }) bytes.old result shadow.new output.new spectra.new powers.new bytes.new }
{
    let mut out = [0.0f32; 4096];
    let room = (bytes.len() / 4).min(4096);
    let answer = tau::flush(s, shadow, output, spectra, powers, &mut out[..room]);
    wire::write_samples(&out[..answer.delivered], bytes);
    answer
}
