// The lines of a text in order: each is put among those before it, at the place that a search by halves finds.
ghost use Rattle.std.specs.Prelude.{◌≡◌, ◌≤◌, ◌<◌, ◌+◌, length, take, MatchOption};
ghost use Rattle.line_order.specs.Order.{at_most};
ghost use Rattle.manifest.specs.Lines.{lines_of};
ghost use Rattle.manifest.specs.Sorting.{insert_of, sort_of, InOrder};
ghost use Rattle.manifest.specs.Steps.{lines_in, Holds};

use crate::split::split_line;

// Puts the text's lines into `lines`, in order, and counts them; nothing where they are more than there is room for.
pub fn order_lines<'a>(text: &'a [u8], lines: &mut [&'a [u8]]) -> Option<usize>
    ensures { MatchOption result (length lines.old < length (lines_of text.now)) (Holds lines.new (sort_of at_most (lines_of text.now))) }
{
    let mut count = 0usize;
    let mut rest = text;
    while !rest.is_empty() {
        if count == lines.len() {
            return None;
        }
        let (line, after) = split_line(rest);
        insert(lines, count, line);
        count += 1;
        rest = after;
    }
    Some(count)
}

// Puts a line among the first `count`, behind those that are at most it. Those from there on move up by one.
fn insert<'a>(lines: &mut [&'a [u8]], count: usize, line: &'a [u8])
    requires room { count < length lines.old }
    requires in_order { InOrder at_most (lines_in (take count lines.old)) }
    ensures { Holds lines.new (insert_of at_most line.now (lines_in (take count lines.old))) (count + 1) }
{
    let place = lines[..count].partition_point(|before| line_order::at_most(before, line));
    lines.copy_within(place..count, place + 1);
    lines[place] = line;
}
