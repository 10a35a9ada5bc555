// Writing: a record to the front of a buffer. What lies behind it stays.
ghost use Rattle.std.specs.Prelude.{◌≡◌, length};
ghost use Rattle.record.specs.Kind.{number_of};
ghost use Rattle.record.specs.Answers.{written_of};
ghost use Rattle.record.specs.Promises as promises;

use crate::header::Header;
use crate::kind::Kind;
use refusal::Refusal;

// The answer of a writer as C has it: how many bytes of the buffer the record takes up.
#[repr(C)]
#[derive(Clone, Copy)]
pub struct Written {
    pub refusal: u32,
    pub written: usize,
}

impl From<Result<usize, Refusal>> for Written {
    ghost from_gives = { λ answer written. written ≡ written_of answer };

    fn from(answer: Result<usize, Refusal>) -> Written {
        match answer {
            Ok(written) => Written {
                refusal: 0,
                written,
            },
            Err(refusal) => Written {
                refusal: u32::from(refusal),
                written: 0,
            },
        }
    }
}

// A record whose kind is told by its number, as a host tells it. How many bytes of the buffer it takes up.
#[tactic(auto, using(laws::specs::Choice::choices, crate::proofs::Accepted::unknown_unfit), unfolding(crate::specs::Writing::write_of, crate::specs::Writing::write_refusal))]
pub fn write(kind: u32, payload: &[u8], out: &mut [u8]) -> Result<usize, Refusal>
    ensures { promises.Write kind payload.now out.old (written_of result) out.new }
{
    write_record(Kind::try_from(kind)?, payload, out)
}

// A loop: for std's copy_from_slice the host library would need C's memmove, and a header would be made beside its place.
fn put(bytes: &[u8], out: &mut [u8])
    requires { length bytes.now ≡ length out.old }
    ensures { out.new ≡ bytes.now }
{
    for k in 0..bytes.len() {
        out[k] = bytes[k];
    }
}

#[tactic(auto, using(laws::specs::Choice::choices), unfolding(crate::specs::Writing::write_of, crate::specs::Writing::write_refusal))]
pub fn write_record(kind: Kind, payload: &[u8], out: &mut [u8]) -> Result<usize, Refusal>
    ensures { promises.Write (number_of kind) payload.now out.old (written_of result) out.new }
{
    let header = Header::new(kind, payload.len())?;
    let size = header.size();
    if out.len() < size {
        return Err(Refusal::NoRoom);
    }
    put(&header.to_bytes(), &mut out[..6]);
    put(payload, &mut out[6..size]);
    Ok(size)
}
