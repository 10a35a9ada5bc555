// Why a call is refused. Document 01 gives 1 to 6 their numbers, and records have 7 to 9; 0 is that nothing is refused.
#![tactic(auto)]

ghost use Rattle.std.specs.Prelude.{◌≡◌};
ghost use Rattle.refusal.specs.Refusal.{number_of, number_in};
ghost use Rattle.refusal.specs.declared.Refusal.TheVariants.{WrongLength};

use std::array::TryFromSliceError;

#[derive(Clone, Copy, Debug, PartialEq, Eq)]
pub enum Refusal {
    // A setting or a tap count outside its range.
    Settings,
    // A lent state or transform buffer has not exactly the needed length.
    WrongLength,
    // Near and far differ in length.
    UnequalLengths,
    // More than 4,096 pairs in one call.
    TooManyPairs,
    // The output has no room for what the call would deliver.
    NoRoom,
    // A stored state holds a number outside its range.
    StateOutOfRange,
    // The first two bytes are not the mark of a record.
    NoMark,
    // A header that no record has.
    BadHeader,
    // The bytes end inside the record.
    CutShort,
}

// A lent buffer of another length than the array that it is taken for.
impl From<TryFromSliceError> for Refusal {
    ghost from_gives = { λ _ refusal. refusal ≡ WrongLength };

    fn from(_error: TryFromSliceError) -> Refusal {
        Refusal::WrongLength
    }
}

impl From<Refusal> for u32 {
    ghost from_gives = { λ refusal number. number ≡ number_of refusal };

    fn from(refusal: Refusal) -> u32 {
        match refusal {
            Refusal::Settings => 1,
            Refusal::WrongLength => 2,
            Refusal::UnequalLengths => 3,
            Refusal::TooManyPairs => 4,
            Refusal::NoRoom => 5,
            Refusal::StateOutOfRange => 6,
            Refusal::NoMark => 7,
            Refusal::BadHeader => 8,
            Refusal::CutShort => 9,
        }
    }
}

// The answer as a number, for hosts that have no enum.
pub fn number<T>(answer: &Result<T, Refusal>) -> u32
    ensures { result ≡ number_in answer.now }
{
    match answer {
        Ok(_) => 0,
        Err(refusal) => u32::from(*refusal),
    }
}
