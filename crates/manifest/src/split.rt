// The lines of a text, one after another.
ghost use Rattle.std.specs.Prelude.{◌≡◌, ◌==◌, ◌≤◌, ◌+◌, not, length, drop};
ghost use Rattle.std.specs.List.{prefix_len};
ghost use Rattle.manifest.specs.Lines.{lines_of};
ghost use Rattle.manifest.specs.Steps.{up_to};

// A text's first line, and what follows its newline.
pub fn split_line(text: &[u8]) -> (&[u8], &[u8])
    ensures line { result.0.now ≡ up_to text.now }
    ensures rest { result.1.now ≡ drop (length (up_to text.now) + 1) text.now }
{
    let (line, rest) = text.split_at(line_len(text));
    match rest {
        [_newline, after @ ..] => (line, after),
        [] => (line, rest),
    }
}

// How many lines a text has: one pass, and nothing is put in order.
pub fn count_lines(text: &[u8]) -> usize
    ensures { result ≡ length (lines_of text.now) }
{
    let mut count = 0usize;
    let mut rest = text;
    while !rest.is_empty() {
        rest = split_line(rest).1;
        count += 1;
    }
    count
}

fn line_len(text: &[u8]) -> usize
    ensures value { result ≡ prefix_len (λ b. not (b == 10)) text.now }
    ensures within { result ≤ length text.now }
{
    text.iter().take_while(|b| **b != b'\n').count()
}
