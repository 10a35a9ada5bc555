// What the bytes held have at their front. Nothing is read here.
ghost use Rattle.std.specs.Prelude.{◌≡◌};
ghost use Rattle.record_input.specs.Front.{front_of, front_in};

use record::Header;
use refusal::Refusal;

#[derive(Clone, Copy)]
pub enum Front {
    Whole(Header),
    // The beginning of a record, or nothing.
    Begun,
    End,
}

// With the input at its end nothing can follow: then no bytes are the end, and too few are a refusal.
#[tactic(auto, using(laws::specs::Choice::choices), unfolding(crate::specs::Front::front_of))]
pub fn at_front(bytes: &[u8], ended: bool) -> Result<Front, Refusal>
    ensures { front_in result ≡ front_of bytes.now ended }
{
    match record::read(bytes) {
        Ok(header) => Ok(Front::Whole(header)),
        Err(Refusal::CutShort) if !ended => Ok(Front::Begun),
        Err(Refusal::CutShort) if bytes.is_empty() => Ok(Front::End),
        Err(refusal) => Err(refusal),
    }
}
