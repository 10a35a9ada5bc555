// The form of a line, and the numbers in it.
ghost use Rattle.std.specs.Prelude.{◌≡◌, ◌↔◌, ℕ, ◌+◌, ◌*◌, ◌<◌, ◌≤◌, length, slice_index, take, IsTrue, IsSome, IfSome};
ghost use Rattle.cases.specs.Line.{digit_of, fits_at, is_case, number_at};

/// A line of a list whose lines have `FIELDS` fields.
#[derive(Clone, Copy)]
pub struct Case<const FIELDS: usize> {
    pub letter: u8,
    pub fields: [u64; FIELDS],
}

impl<const FIELDS: usize> Case<FIELDS> {
    /// The letter may be any byte: each program knows its own.
    pub fn parse(line: &[u8]) -> Option<Case<FIELDS>>
        ensures form { IsSome result ↔ (IsTrue (is_case line.now) × (length line.now ≡ 17 * FIELDS + 2)) }
        ensures letter { IfSome result (λ case. case.letter ≡ slice_index line.now 0) }
        ensures fields { IfSome result (λ case. (k : ℕ) → k < FIELDS → slice_index case.fields k ≡ number_at line.now (17 * k + 2) 16) }
    {
        if line.len() % 17 != 2 || line.len() / 17 != FIELDS || !is_case(line) {
            return None;
        }
        let mut fields = [0u64; FIELDS];
        for k in 0..FIELDS {
            fields[k] = field(line, k);
        }
        Some(Case {
            letter: line[0],
            fields,
        })
    }

    /// The first of the fields, as many as are asked for.
    pub fn head<const COUNT: usize>(&self) -> [u64; COUNT]
        requires { COUNT ≤ FIELDS }
        ensures { result ≡ take COUNT self.now.fields }
    {
        let mut head = [0u64; COUNT];
        head.copy_from_slice(&self.fields[..COUNT]);
        head
    }
}

// The number in field `n` of a line, counted from 0. A byte that is no digit counts as 0, so ask `is_case` first.
fn field(line: &[u8], n: usize) -> u64
    requires { 17 * n + 18 ≤ length line.now }
    ensures { result ≡ number_at line.now (17 * n + 2) 16 }
{
    let start = 17 * n + 2;
    let mut value = 0u64;
    for k in 0..16usize {
        value = 16 * value + digit(line[start + k]) % 16;
    }
    value
}

// Whether a line has the form of a case. To its end, whatever does not fit: an end before it keeps the bytes from being tried many at once.
fn is_case(line: &[u8]) -> bool
    ensures { result ≡ is_case line.now }
{
    let mut fits = true;
    for k in 0..line.len() {
        fits &= fits_at(line.len(), k, line[k]);
    }
    fits
}

// Whether the byte b may stand at place k of a line of `size` bytes. A field takes 17, the blank before it
// being one, so that blanks stand at 1, 18, 35 and so on.
#[tactic(auto, using(laws::specs::Choice::choices), unfolding(crate::specs::Line::fits_at))]
fn fits_at(size: usize, k: usize, b: u8) -> bool
    requires { k < size }
    ensures { result ≡ fits_at size k b }
{
    if k == 0 {
        return true;
    }
    if k + 1 == size {
        return b == b'\n';
    }
    if k % 17 == 1 {
        return b == b' ';
    }
    digit(b) < 16
}

// The value of a hex digit, in lower case, and 16 for any other byte.
#[tactic(auto, using(laws::specs::Choice::choices), unfolding(crate::specs::Line::digit_of))]
fn digit(b: u8) -> u64
    ensures { result ≡ digit_of b }
{
    match b {
        b'0'..=b'9' => u64::from(b - b'0'),
        b'a'..=b'f' => u64::from(b - b'a' + 10),
        _ => 16,
    }
}
