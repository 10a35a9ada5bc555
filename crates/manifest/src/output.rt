// The lines in order, as a text.
ghost use Rattle.std.specs.Prelude.{◌≡◌, ◌≤◌, ◌++◌, Bool, length, drop};
ghost use Rattle.manifest.specs.Lines.{joined_of};
ghost use Rattle.manifest.specs.Steps.{lines_in, piece_of};

// Joins the lines into a buffer that is as long as they are together, with a newline behind each of them, or behind each but the last:
// the buffer's length tells which.
pub fn write_lines(lines: &[&[u8]], out: &mut [u8])
    requires { (e : Bool) × (length out.old ≡ length (joined_of e (lines_in lines.now))) }
    ensures { (e : Bool) → length out.old ≡ length (joined_of e (lines_in lines.now)) → out.new ≡ joined_of e (lines_in lines.now) }
{
    let mut at = 0usize;
    for line in lines {
        at += put_line(line, &mut out[at..]);
    }
}

// Puts a line at the buffer's start, with a newline behind it where there is room for one. Counts its bytes.
fn put_line(line: &[u8], out: &mut [u8]) -> usize
    requires { length line.now ≤ length out.old }
    ensures value { result ≡ length (piece_of (length out.old) line.now) }
    ensures within { result ≤ length out.old }
    ensures out_after { out.new ≡ piece_of (length out.old) line.now ++ drop result out.old }
{
    out[..line.len()].copy_from_slice(line);
    if line.len() < out.len() {
        out[line.len()] = b'\n';
        return line.len() + 1;
    }
    line.len()
}
