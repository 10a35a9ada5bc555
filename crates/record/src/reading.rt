// Reading: the record at the front of some bytes. What lies behind it is not looked at.
ghost use Rattle.record.specs.Answers.{found_of};
ghost use Rattle.record.specs.Promises as promises;

use crate::header::Header;
use refusal::Refusal;

#[tactic(auto, using(laws::specs::Choice::choices), unfolding(crate::specs::Reading::read_of, crate::specs::Reading::read_refusal))]
pub fn read(bytes: &[u8]) -> Result<Header, Refusal>
    ensures { promises.Read bytes.now (found_of result) }
{
    let header = Header::read(bytes)?;
    if bytes.len() < header.size() {
        return Err(Refusal::CutShort);
    }
    Ok(header)
}

// The payload of the record that `read` finds: a part of the caller's own bytes.
#[tactic(auto, using(laws::specs::Choice::choices), unfolding(crate::specs::Reading::payload_of, crate::specs::Reading::read_of, crate::specs::Reading::read_refusal))]
pub fn payload(bytes: &[u8]) -> &[u8]
    ensures { promises.Payload bytes.now result.now }
{
    match read(bytes) {
        Ok(header) => &bytes[6..header.size()],
        Err(_) => &bytes[..0],
    }
}
