// A watch whose buffers are lent: four of any length, as TauCanceller's own calls take them, beside its state, the course and the counts.
// `Watch` has all of these in one, and calls these. At most 255 pairs wait for their block.
ghost use Rattle.std.specs.Prelude.{◌≡◌, ◌-◌, ◌*◌, ◌≤◌, ◌<◌, length, OnOk};
ghost use Rattle.std.specs.Io.KnownBytes.{Appends};
ghost use Rattle.reasons.specs.Note.{course_after, counts_after};
ghost use Rattle.watch.specs.Watched.{begun_of, fed_by, flushed_by, reset_by, pieces_of, lent_at, lent_begun, lent_engine, Finished};

use pipe::ProgramError;
use reasons::course::Course;
use reasons::note::{note, reset_lines, stretch_line};
use reasons::tally::summary;
use std::io::Write;
use tau_state::report::Last;
use tau_state::state::TauCanceller;

// The state, and the course that goes with it, before the first pair.
pub fn start(
    shadow: &mut [f64],
    output: &mut [f64],
    spectra: &mut [f64],
    powers: &mut [f64],
) -> (TauCanceller, Course)
    ensures waits { result.0.carried ≤ 255 }
    ensures begun { lent_begun result.0 result.1 shadow.new output.new spectra.new powers.new ≡ begun_of shadow.old output.old spectra.old powers.old }
{
    let started = tau::create(4, true, shadow, output, spectra, powers);
    (started.state, Course::start())
}

// As `Watch::pairs`.
pub fn pairs<W: Write>(
    stdout: &mut W,
    state: &mut TauCanceller,
    course: &mut Course,
    shadow: &mut [f64],
    output: &mut [f64],
    spectra: &mut [f64],
    powers: &mut [f64],
    counts: &mut [u64; 11],
    bytes: &[u8],
) -> Result<(), ProgramError>
    requires { state.old.carried ≤ 255 }
    ensures waits { state.new.carried ≤ 255 }
    ensures watched { OnOk result (lent_at state.new course.new shadow.new output.new spectra.new powers.new counts.new ≡ pieces_of (length bytes.now) (lent_at state.old course.old shadow.old output.old spectra.old powers.old counts.old) bytes.now) }
{
    let mut rest = bytes;
    while rest.len() > 0 {
        let size = rest.len().min(room(state));
        feed(
            stdout,
            state,
            course,
            shadow,
            output,
            spectra,
            powers,
            counts,
            &rest[..size],
        )?;
        rest = &rest[size..];
    }
    Ok(())
}

// How many bytes of pairs the block still takes. Before a call there is room for a pair at least.
fn room(state: &TauCanceller) -> usize
    requires { state.now.carried ≤ 255 }
    ensures value { result ≡ 8 * (256 - state.now.carried) }
    ensures some { 0 < result }
{
    8 * (256 - state.carried)
}

// One call. Of its buffer for bytes nothing is used: it is as long as that of program `aec`, so that what is proved of its calls
// holds of this one.
fn feed<W: Write>(
    stdout: &mut W,
    state: &mut TauCanceller,
    course: &mut Course,
    shadow: &mut [f64],
    output: &mut [f64],
    spectra: &mut [f64],
    powers: &mut [f64],
    counts: &mut [u64; 11],
    piece: &[u8],
) -> Result<(), ProgramError>
    requires { state.old.carried ≤ 255 }
    ensures waits { state.new.carried ≤ 255 }
    ensures fed { lent_at state.new course.new shadow.new output.new spectra.new powers.new counts.new ≡ fed_by (lent_at state.old course.old shadow.old output.old spectra.old powers.old counts.old) piece.now }
{
    let mut unused = [0u8; 16384];
    let answer = capture::feed(*state, shadow, output, spectra, powers, piece, &mut unused);
    *state = answer.state;
    tell(stdout, answer.report.last, course, counts)
}

// As `Watch::flush`.
pub fn flush<W: Write>(
    stdout: &mut W,
    state: &mut TauCanceller,
    course: &mut Course,
    shadow: &mut [f64],
    output: &mut [f64],
    spectra: &mut [f64],
    powers: &mut [f64],
    counts: &mut [u64; 11],
) -> Result<(), ProgramError>
    requires { state.old.carried ≤ 255 }
    ensures waits { state.new.carried ≤ 255 }
    ensures flushed { lent_at state.new course.new shadow.new output.new spectra.new powers.new counts.new ≡ flushed_by (lent_at state.old course.old shadow.old output.old spectra.old powers.old counts.old) }
{
    let mut unused = [0u8; 1024];
    let answer = capture::finish(*state, shadow, output, spectra, powers, &mut unused);
    *state = answer.state;
    tell(stdout, answer.report.last, course, counts)
}

// What a call's report adds, and the line of a stretch that it ends.
fn tell<W: Write>(
    stdout: &mut W,
    last: Last,
    course: &mut Course,
    counts: &mut [u64; 11],
) -> Result<(), ProgramError>
    ensures course { course.new ≡ course_after course.old last }
    ensures counts { counts.new ≡ counts_after last counts.old }
{
    let noted = note(*course, last, counts);
    *course = noted.course;
    write(stdout, noted.line.as_str().as_bytes())
}

// As `Streams::write_all`.
fn write<W: Write>(stdout: &mut W, bytes: &[u8]) -> Result<(), ProgramError>
    ensures appended { OnOk result (Appends (W.contents stdout.old) (W.contents stdout.new) bytes.now) }
{
    stdout
        .write_all(bytes)
        .map_err(|_| ProgramError::WriteFailed)
}

// As `Watch::reset`.
pub fn reset<W: Write>(
    stdout: &mut W,
    state: &mut TauCanceller,
    course: &mut Course,
    shadow: &mut [f64],
    output: &mut [f64],
    spectra: &mut [f64],
    powers: &mut [f64],
) -> Result<(), ProgramError>
    requires { state.old.carried ≤ 255 }
    ensures waits { state.new.carried ≤ 255 }
    ensures reset { lent_begun state.new course.new shadow.new output.new spectra.new powers.new ≡ reset_by (lent_engine state.old shadow.old output.old spectra.old powers.old) course.old }
{
    let lines = reset_lines(*course);
    let started = tau::reset(*state, shadow, output, spectra, powers);
    *state = started.state;
    *course = course.closed();
    write(stdout, lines.as_str().as_bytes())
}

// As `Watch::finish`.
pub fn finish<W: Write>(
    stdout: &mut W,
    course: Course,
    counts: &[u64; 11],
) -> Result<(), ProgramError>
    ensures finished { OnOk result (Finished course counts.now (W.contents stdout.old) (W.contents stdout.new)) }
{
    write(stdout, stretch_line(course).as_str().as_bytes())?;
    let counted = summary(course.blocks, counts);
    write(stdout, counted.as_str().as_bytes())
}
