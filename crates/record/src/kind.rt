// What a record tells of.
ghost use Rattle.std.specs.Prelude.{◌≡◌};
ghost use Rattle.record.specs.Kind.{number_of, Names};
ghost use Rattle.record.specs.Record.{fits_of};

use refusal::Refusal;

#[derive(Clone, Copy, Debug, PartialEq, Eq)]
pub enum Kind {
    Pairs = 1,
    Output = 2,
    Flush = 3,
    Reset = 4,
}

impl Kind {
    // Whether a record of this kind may have a payload of so many bytes.
    #[tactic(auto, unfolding(crate::specs::Record::fits_of, laws::specs::Choice::pick))]
    pub fn fits(self, len: usize) -> bool
        ensures { result ≡ fits_of (number_of self) len }
    {
        if 4096 < len {
            return false;
        }
        match self {
            Kind::Pairs => len % 8 == 0,
            Kind::Output => len % 4 == 0,
            Kind::Flush | Kind::Reset => len == 0,
        }
    }
}

impl From<Kind> for u32 {
    ghost from_gives = { λ kind number. number ≡ number_of kind };

    fn from(kind: Kind) -> u32 {
        kind as u32
    }
}

impl From<Kind> for u8 {
    ghost from_gives = { λ kind number. number ≡ number_of kind };

    fn from(kind: Kind) -> u8 {
        kind as u8
    }
}

impl TryFrom<u32> for Kind {
    type Error = Refusal;

    ghost try_from_gives = { Names };

    fn try_from(number: u32) -> Result<Kind, Refusal> {
        match number {
            1 => Ok(Kind::Pairs),
            2 => Ok(Kind::Output),
            3 => Ok(Kind::Flush),
            4 => Ok(Kind::Reset),
            _ => Err(Refusal::BadHeader),
        }
    }
}

impl TryFrom<u8> for Kind {
    type Error = Refusal;

    ghost try_from_gives = { Names };

    fn try_from(number: u8) -> Result<Kind, Refusal> {
        Kind::try_from(u32::from(number))
    }
}
