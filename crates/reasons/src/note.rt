// What a block adds to a run: its reason and its overs are counted, and where it ends a stretch, that stretch has its line.
ghost use Rattle.std.specs.Prelude.{◌≡◌};
ghost use Rattle.reasons.specs.Course.{number_of, leak_told};
ghost use Rattle.reasons.specs.Note.{Stretch, Ended, Ends, Reset, course_after, counts_after};

use crate::course::Course;
use crate::lines::line_of;
use crate::tally::count_told;
use arrayvec::ArrayString;
use tau_state::report::{Last, Told, overs_of, reason_number, reason_of};

// The line of the stretch that a block ended, empty where it ended none, and where the run is then.
#[derive(Clone, Copy)]
pub struct Noted {
    pub line: ArrayString<143>,
    pub course: Course,
}

// Where no block ran nothing is added.
#[tactic(auto, unfolding(crate::specs::Note::course_after, crate::specs::Note::counts_after, laws::specs::Choice::pick))]
pub fn note(course: Course, last: Last, counts: &mut [u64; 11]) -> Noted
    ensures ends { Ends course last result.line.bytes }
    ensures course_value { result.course ≡ course_after course last }
    ensures counts_after { counts.new ≡ counts_after last counts.old }
{
    let told = Told {
        reason: reason_of(last),
        overs: overs_of(last),
    };
    if reason_number(told.reason) == 0 {
        return Noted {
            line: ArrayString::new(),
            course,
        };
    }
    count_told(told, counts);
    Noted {
        line: ended_line(course, told),
        course: course.after(told),
    }
}

// The line of the stretch, unless a block that tells this is of it.
fn ended_line(course: Course, told: Told) -> ArrayString<143>
    ensures { Ended course (number_of told) (leak_told told) told.overs result.bytes }
{
    if course.goes_on(told) {
        return ArrayString::new();
    }
    stretch_line(course)
}

// The line of the stretch, where it has blocks.
pub fn stretch_line(course: Course) -> ArrayString<143>
    ensures { Stretch course result.bytes }
{
    if course.blocks <= course.first {
        return ArrayString::new();
    }
    line_of(
        course.first,
        course.blocks - 1,
        course.number,
        course.leak,
        course.overs,
    )
}

// A reset ends the stretch, and has a line of its own.
pub fn reset_lines(course: Course) -> ArrayString<149>
    ensures { Reset course result.bytes }
{
    let mut text = ArrayString::new();
    text.push_str(stretch_line(course).as_str());
    text.push_str("reset\n");
    text
}
