// TauCanceller's calls with their records, of which a capture is made: what program `pack` does between a read and a write, with no
// reading and no writing in it.
//
// A call leaves two records at the front of `out`: of what went in, and behind it of what was delivered. It is refused as TauCanceller's
// own call is, 6 and then 2, and then with 5 where `out` has fewer places than any such call may need, whatever this one would need. A
// refused call changes nothing and writes nothing.
#![tactic(auto)]

ghost use Rattle.std.specs.Prelude.{◌≡◌, true, ◌++◌, ◌≤◌, length, drop};
ghost use Rattle.refusal.specs.Refusal.{number_in};
ghost use Rattle.record.specs.Kind.{number_of};
ghost use Rattle.record.specs.Record.{fits_of};
ghost use Rattle.recorded.specs.Recorded.{recorded_of, both_of, first_refusal};
ghost use Rattle.recorded.specs.Promises.{Feed, Finish};

use record::Kind;
use refusal::Refusal;
use tau_fresh::refusals::state_refusal;
use tau_state::state::TauCanceller;

// How many bytes of the buffer the records take up, and the state after the call.
#[derive(Clone, Copy)]
pub struct Recorded {
    pub written: usize,
    pub state: TauCanceller,
}

// The whole pairs of `pairs`, at most 512 of them, are processed. A record of kind 1 has their bytes as they are, and one of kind 2 those
// of the samples that they delivered: of 512 samples at most, so `out` needs 6,156 places.
pub fn feed(
    s: TauCanceller,
    shadow: &mut [f64],
    output: &mut [f64],
    spectra: &mut [f64],
    powers: &mut [f64],
    pairs: &[u8],
    out: &mut [u8],
) -> Result<Recorded, Refusal>
    ensures { Feed (record { state = s; shadow = shadow.old; output = output.old; spectra = spectra.old; powers = powers.old }) pairs.now out.old (recorded_of s result) shadow.new output.new spectra.new powers.new out.new }
{
    check(s, shadow, output, spectra, powers, 6156, out)?;
    let taken = &pairs[..pairs.len().min(4096) / 8 * 8];
    // As long as the buffer of program `aec`, so that what is proved of its calls holds of this one.
    let mut bytes = [0u8; 16384];
    let fed = capture::feed(s, shadow, output, spectra, powers, taken, &mut bytes);
    let written = put(Kind::Pairs, taken, &bytes[..4 * fed.delivered], out);
    Ok(Recorded {
        written,
        state: fed.state,
    })
}

// What waits for its block is flushed: a record of kind 3, and one of kind 2 with the bytes of what was delivered. 256 samples are more
// than can wait, so `out` needs 1,036 places.
pub fn finish(
    s: TauCanceller,
    shadow: &mut [f64],
    output: &mut [f64],
    spectra: &mut [f64],
    powers: &mut [f64],
    out: &mut [u8],
) -> Result<Recorded, Refusal>
    ensures { Finish (record { state = s; shadow = shadow.old; output = output.old; spectra = spectra.old; powers = powers.old }) out.old (recorded_of s result) shadow.new output.new spectra.new powers.new out.new }
{
    check(s, shadow, output, spectra, powers, 1036, out)?;
    let mut bytes = [0u8; 1024];
    let flushed = capture::finish(s, shadow, output, spectra, powers, &mut bytes);
    let written = put(Kind::Flush, b"", &bytes[..4 * flushed.delivered], out);
    Ok(Recorded {
        written,
        state: flushed.state,
    })
}

// What can refuse a call, in document 01's order: the state, the lent buffers' lengths, the places of `out`.
fn check(
    s: TauCanceller,
    shadow: &[f64],
    output: &[f64],
    spectra: &[f64],
    powers: &[f64],
    places: usize,
    out: &[u8],
) -> Result<(), Refusal>
    ensures { number_in result ≡ first_refusal s (length shadow.now) (length output.now) (length spectra.now) (length powers.now) places (length out.now) }
{
    let number = state_refusal(s, shadow.len(), output.len(), spectra.len(), powers.len());
    if number == 6 {
        return Err(Refusal::StateOutOfRange);
    }
    if number != 0 {
        return Err(Refusal::WrongLength);
    }
    if out.len() < places {
        return Err(Refusal::NoRoom);
    }
    Ok(())
}

// A record of this kind, and one of kind 2 behind it. How many bytes both take up.
fn put(kind: Kind, payload: &[u8], delivered: &[u8], out: &mut [u8]) -> usize
    requires payloads_fit { (fits_of (number_of kind) (length payload.now) ≡ true) × (fits_of 2 (length delivered.now) ≡ true) }
    requires room { length (both_of (number_of kind) payload.now delivered.now) ≤ length out.old }
    ensures written { result ≡ length (both_of (number_of kind) payload.now delivered.now) }
    ensures out_after { out.new ≡ both_of (number_of kind) payload.now delivered.now ++ drop result out.old }
{
    let start = record::write_record(kind, payload, out).unwrap();
    let more = record::write_record(Kind::Output, delivered, &mut out[start..]).unwrap();
    start + more
}
