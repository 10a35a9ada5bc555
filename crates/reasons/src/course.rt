// Where a run is: how many blocks came, and the stretch of the last of them, blocks in a row with one reason and one number of overs.
ghost use Rattle.std.specs.Prelude.{◌≡◌};
ghost use Rattle.reasons.specs.Course.{number_of, leak_told, start_of, goes_on, first_with, after_of, closed_of};

use tau_state::report::{Told, leak_of, outcome_of, reason_number};
use tau_state::sums::one_more;

// The stretch has the blocks from number `first` on, all that came since, and each of them has this reason, with its leak, and so many
// overs. Where it has none, `first` is `blocks`: so a count of blocks that cannot go on has no stretch either.
#[derive(Clone, Copy)]
pub struct Course {
    pub blocks: u64,
    pub first: u64,
    pub number: u32,
    pub leak: f64,
    pub overs: u32,
}

impl Course {
    // Before the first block.
    pub fn start() -> Course
        ensures { result ≡ start_of }
    {
        Course {
            blocks: 0,
            first: 0,
            number: 0,
            leak: 0.0,
            overs: 0,
        }
    }

    // Whether a block that tells this is of the stretch.
    pub fn goes_on(self, told: Told) -> bool
        ensures { result ≡ goes_on self (number_of told) (leak_told told) told.overs }
    {
        goes_on(
            self,
            reason_number(told.reason),
            leak_of(outcome_of(told.reason)),
            told.overs,
        )
    }

    // After one block more.
    pub fn after(self, told: Told) -> Course
        ensures { result ≡ after_of self (number_of told) (leak_told told) told.overs }
    {
        after(
            self,
            reason_number(told.reason),
            leak_of(outcome_of(told.reason)),
            told.overs,
        )
    }

    // With no stretch: the next block begins one.
    pub fn closed(self) -> Course
        ensures { result ≡ closed_of self }
    {
        Course {
            blocks: self.blocks,
            first: self.blocks,
            number: 0,
            leak: 0.0,
            overs: 0,
        }
    }
}

// Whether a block is of the stretch whose reason has this number, of any number and any leak. The leak is the same where its bits are.
#[tactic(auto, unfolding(crate::specs::Course::goes_on, laws::specs::Choice::pick))]
pub fn goes_on(course: Course, number: u32, leak: f64, overs: u32) -> bool
    ensures { result ≡ goes_on course number leak overs }
{
    course.number == number
        && course.overs == overs
        && numbers::to_bits(course.leak) == numbers::to_bits(leak)
}

// After such a block.
pub fn after(course: Course, number: u32, leak: f64, overs: u32) -> Course
    ensures { result ≡ after_of course number leak overs }
{
    Course {
        blocks: one_more(course.blocks),
        first: first_with(course, number, leak, overs),
        number,
        leak,
        overs,
    }
}

// Where its stretch begins.
#[tactic(auto, unfolding(crate::specs::Course::first_with, laws::specs::Choice::pick))]
fn first_with(course: Course, number: u32, leak: f64, overs: u32) -> u64
    ensures { result ≡ first_with course number leak overs }
{
    if goes_on(course, number, leak, overs) {
        course.first
    } else {
        course.blocks
    }
}
