// The peak magnitude of the far history. One running maximum is a chain in which each step waits for
// the one before. Sixteen side by side do not wait for each other, and the greatest size is the same in
// any order.
#![tactic(auto, unfolding(laws::specs::Choice::pick, crate::specs::Peak::greater_of, crate::specs::Peak::with_size))]

ghost use Rattle.std.specs.Prelude.{◌≡◌, ℕ, ◌*◌, ◌≤◌, ◌<◌, length};
ghost use Rattle.rho_taps.specs.Ring.{peak_of};
ghost use Rattle.rho_taps.specs.Peak.{peak_up, greater_of, with_size, onward_of, lanes_of};

// The greatest size in `history`, or 0.0 where there is none; a NaN is ignored. Around the ring from any place it is the same.
pub fn peak(history: &[f32]) -> f32
    ensures value { result ≡ peak_up history.now }
    ensures around_ring { (pos : ℕ) → pos < length history.now → result ≡ peak_of history.now pos (length history.now) }
{
    let n = history.len() / 16;
    let p = lanes(history, n);
    let m = onward(&p, 0.0);
    onward(&history[16 * n..], m)
}

// Sixteen running maxima over the first 16 n samples.
fn lanes(xs: &[f32], n: usize) -> [f32; 16]
    requires { 16 * n ≤ length xs.now }
    ensures { result ≡ lanes_of xs.now n }
{
    let mut p = [0.0f32; 16];
    for b in 0..n {
        for q in 0..16usize {
            p[q] = with_size(p[q], xs[16 * b + q]);
        }
    }
    p
}

// One running maximum, from p.
fn onward(xs: &[f32], p: f32) -> f32
    ensures { result ≡ onward_of xs.now 0 p }
{
    let mut m = p;
    for x in xs {
        m = with_size(m, *x);
    }
    m
}

// The larger of p, which is no NaN and not below 0.0, and the size of x. Each of the two steps is one
// instruction: the first leaves a NaN and -0.0 as they are, and neither is above p.
fn with_size(p: f32, x: f32) -> f32
    ensures { result ≡ with_size p x }
{
    greater(p, greater(x, -x))
}

fn greater(p: f32, x: f32) -> f32
    ensures { result ≡ greater_of p x }
{
    if p < x { x } else { p }
}
