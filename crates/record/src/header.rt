// The six bytes before a payload.
ghost use Rattle.std.specs.Prelude.{◌≡◌, ◌+◌, true};
ghost use Rattle.record.specs.Kind.{number_of};
ghost use Rattle.record.specs.Record.{fits_of, header_of};

use crate::kind::Kind;
use refusal::Refusal;

const MARK: [u8; 2] = [0xec, 0x0e];

// The kind, and how many bytes the payload has: no more than a record of this kind may have.
#[derive(Clone, Copy, Debug, PartialEq, Eq)]
pub struct Header {
    pub kind: Kind,
    pub len: usize,
    pub ghost fits: { fits_of (number_of kind) len ≡ true },
}

impl Header {
    ghost use Rattle.record.specs.Header.{Made, IsHeader};

    // How many bytes the record takes up, header and payload.
    pub fn size(self) -> usize
        ensures { result ≡ 6 + self.len }
    {
        6 + self.len
    }

    pub fn new(kind: Kind, len: usize) -> Result<Header, Refusal>
        ensures { Made kind len result }
    {
        if kind.fits(len) {
            Ok(Header { kind, len })
        } else {
            Err(Refusal::BadHeader)
        }
    }

    // The header is judged whole before any byte behind it.
    #[tactic(auto, using(laws::specs::Choice::choices, crate::proofs::Accepted::unknown_unfit), unfolding(crate::specs::Reading::header_refusal))]
    pub fn read(bytes: &[u8]) -> Result<Header, Refusal>
        ensures { IsHeader bytes.now result }
    {
        let [first, second, kind, zero, low, high, ..] = bytes else {
            return Err(Refusal::CutShort);
        };
        if [*first, *second] != MARK {
            return Err(Refusal::NoMark);
        }
        if *zero != 0 {
            return Err(Refusal::BadHeader);
        }
        let kind = Kind::try_from(*kind)?;
        Header::new(kind, usize::from(u16::from_le_bytes([*low, *high])))
    }

    pub fn to_bytes(self) -> [u8; 6]
        ensures { result ≡ header_of (number_of self.kind) self.len }
    {
        let [low, high] = (self.len as u16).to_le_bytes();
        [MARK[0], MARK[1], u8::from(self.kind), 0, low, high]
    }
}
