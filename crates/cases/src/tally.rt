// The count of cases, and what is said of those that differ.
ghost use Rattle.std.specs.Prelude.{◌≡◌};

use arrayvec::ArrayString;
use std::fmt::Write as _;
use std::io::Write;

// So many lines that differ, and so many that are no cases, are told of one by one.
const TOLD: u64 = 10;

/// Of the lines so far, `cases` were compared, `differ` of them differ, and `refused` are no cases. A count stays where it is at the
/// top, which no list reaches.
#[derive(Clone, Copy, Default)]
pub struct Tally {
    pub lines: u64,
    pub cases: u64,
    pub differ: u64,
    pub refused: u64,
}

impl Tally {
    ghost use Rattle.cases.specs.Count.{judged, refused};

    #[tactic(auto, using(crate::proofs::Count::more_saturates, laws::specs::Choice::choices), unfolding(crate::specs::Count::judged))]
    /// One more line, a case whose answer is `got`, where the list has `want`.
    pub fn judge<W: Write>(&mut self, output: &mut W, got: u64, want: u64)
        ensures { self.new ≡ judged self.old got want }
    {
        self.lines = self.lines.saturating_add(1);
        self.cases = self.cases.saturating_add(1);
        if got == want {
            return;
        }
        if self.differ < TOLD {
            let line = self.lines;
            let mut text = ArrayString::new();
            let _ = writeln!(
                text,
                "line {line}: got {got:016x}, the list has {want:016x}"
            );
            tell(output, &text);
        }
        self.differ = self.differ.saturating_add(1);
    }

    #[tactic(auto, using(crate::proofs::Count::more_saturates), unfolding(crate::specs::Count::refused))]
    /// One more line, which is no case.
    pub fn refuse<W: Write>(&mut self, output: &mut W)
        ensures { self.new ≡ refused self.old }
    {
        self.lines = self.lines.saturating_add(1);
        if self.refused < TOLD {
            let line = self.lines;
            let mut text = ArrayString::new();
            let _ = writeln!(text, "line {line}: no case");
            tell(output, &text);
        }
        self.refused = self.refused.saturating_add(1);
    }

    /// The last word of a program, with what is left of the list after its last whole line. Where nothing
    /// was compared it does not say that nothing differs.
    pub fn verdict<W: Write>(&self, output: &mut W, program: &str, left: usize) {
        let refused = self.refused;
        let cases = self.cases;
        let differ = self.differ;
        if 0 < refused {
            let mut text = ArrayString::new();
            let _ = writeln!(text, "malformed lines: {refused}");
            tell(output, &text);
        }
        if 0 < left {
            pipe::write_all(output, b"cut short: the last line is not whole\n");
        }
        let mut counts = ArrayString::<64>::new();
        let _ = if cases == 0 {
            write!(counts, "no cases")
        } else {
            write!(counts, "{cases} cases, {differ} differ")
        };
        pipe::say_why(output, program, &counts);
    }
}

// A line in one write, so that none goes out in parts. The longest, of two words in hex, has 79 bytes.
fn tell<W: Write>(output: &mut W, line: &ArrayString<80>) {
    pipe::write_all(output, line.as_str().as_bytes());
}
