// The order of the lines of a manifest: numbers by their value, so that version 9 comes before version 10.
//
// A line is read from left to right. A run of digits counts as the number that it spells, however long, and any other byte as itself.
// Lines that are the same so are told apart by their bytes.
#![tactic(auto)]

ghost use Rattle.std.specs.Prelude.{◌≡◌, ◌==◌, ◌&&◌, ◌≤◌, length};
ghost use Rattle.std.specs.Char.{is_ascii_digit};
ghost use Rattle.std.specs.Cmp.Lexicographic.{slice_cmp};
ghost use Rattle.std.specs.List.{prefix_len};
ghost use Rattle.std.specs.Ordering.{nat_cmp};
ghost use Rattle.line_order.specs.Order.{run, spelled, key};
ghost use Rattle.line_order.specs.Promises.{AtMost};

use std::cmp::Ordering;

// Whether the line `a` comes before the line `b`, or is the same.
pub fn at_most(a: &[u8], b: &[u8]) -> bool
    ensures { AtMost a.now b.now result }
{
    compare_by_value(a, b).then_with(|| a.cmp(&b)).is_le()
}

// The order of two lines with each number as one place.
fn compare_by_value(a: &[u8], b: &[u8]) -> Ordering
    ensures { result ≡ slice_cmp nat_cmp (key a.now) (key b.now) }
{
    let (mut s, mut t) = (a, b);
    while let ([x, s_rest @ ..], [y, t_rest @ ..]) = (s, t) {
        if both_digits(*x, *y) {
            let (number, s_behind) = s.split_at(digits_len(s));
            let (other, t_behind) = t.split_at(digits_len(t));
            let order = compare_numbers(number, other);
            if order.is_ne() {
                return order;
            }
            s = s_behind;
            t = t_behind;
        } else {
            // A digit stands among the other bytes where it stands as a byte.
            if x != y {
                return x.cmp(y);
            }
            s = s_rest;
            t = t_rest;
        }
    }
    // Of two lines that are the same so far the one that ends comes first.
    s.len().cmp(&t.len())
}

fn both_digits(x: u8, y: u8) -> bool
    ensures { result ≡ (is_ascii_digit x && is_ascii_digit y) }
{
    x.is_ascii_digit() && y.is_ascii_digit()
}

// The first number that digits spell against the second. Behind the zeros that lead them the longer one is the greater, and of two that
// are as long the first digit that differs decides: the numbers are never made, so they may have any length.
fn compare_numbers(x: &[u8], y: &[u8]) -> Ordering
    requires x_digits { run x.now ≡ x.now }
    requires y_digits { run y.now ≡ y.now }
    ensures { result ≡ nat_cmp (spelled x.now) (spelled y.now) }
{
    let x = &x[zeros_len(x)..];
    let y = &y[zeros_len(y)..];
    x.len().cmp(&y.len()).then_with(|| x.cmp(&y))
}

// How many digits lead.
fn digits_len(s: &[u8]) -> usize
    ensures value { result ≡ prefix_len is_ascii_digit s.now }
    ensures within { result ≤ length s.now }
{
    s.iter().take_while(|b| b.is_ascii_digit()).count()
}

// How many zeros lead.
fn zeros_len(s: &[u8]) -> usize
    ensures value { result ≡ prefix_len (λ b. b == 48) s.now }
    ensures within { result ≤ length s.now }
{
    s.iter().take_while(|b| **b == b'0').count()
}
