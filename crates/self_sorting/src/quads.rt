// Four numbers at a time: two stages over them with three twiddles. The numbers lie in a scratch of 1,024, of which a half holds 256 real
// parts and then 256 imaginary ones.
ghost use Rattle.std.specs.Prelude.{◌≡◌, ◌+◌, ◌*◌, ◌<◌};
ghost use Rattle.self_sorting.specs.Quads.{get_s, put_s, four_of, put_four, two_stages, turns_of};

use complex::Complex;
use complex_fft::{butterfly, twiddle_at};

#[derive(Clone, Copy)]
pub struct Four {
    pub a: Complex,
    pub b: Complex,
    pub c: Complex,
    pub d: Complex,
}

// The twiddles of two stages: one of the first, for both of its butterflies, and two of the second.
#[derive(Clone, Copy)]
pub struct Turns {
    pub first: Complex,
    pub second: Complex,
    pub third: Complex,
}

pub fn get_split(z: &[f64; 1024], i: usize) -> Complex
    requires { i < 768 }
    ensures { result ≡ get_s z.now i }
{
    Complex::new(z[i], z[i + 256])
}

pub fn put_split(z: &mut [f64; 1024], i: usize, v: Complex)
    requires { i < 768 }
    ensures { z.new ≡ put_s z.old i v }
{
    z[i] = v.re;
    z[i + 256] = v.im;
}

// Four numbers, each `step` on from the one before.
#[tactic(auto, unfolding(crate::specs::Quads::four_of))]
pub fn get_four(z: &[f64; 1024], i: usize, step: usize) -> Four
    requires { i + 3 * step < 768 }
    ensures { result ≡ four_of z.now i step }
{
    Four {
        a: get_split(z, i),
        b: get_split(z, i + step),
        c: get_split(z, i + 2 * step),
        d: get_split(z, i + 3 * step),
    }
}

#[tactic(auto, unfolding(crate::specs::Quads::put_four))]
pub fn put_four(z: &mut [f64; 1024], o: usize, f: Four)
    requires { o < 576 }
    ensures { z.new ≡ put_four z.old o f }
{
    put_split(z, o, f.a);
    put_split(z, o + 64, f.b);
    put_split(z, o + 128, f.c);
    put_split(z, o + 192, f.d);
}

// Two stages over four numbers.
#[tactic(auto, unfolding(crate::specs::Quads::two_stages))]
pub fn two_stages(x: Four, w: Turns) -> Four
    ensures { result ≡ two_stages x w }
{
    let p = butterfly(x.a, x.c, w.first);
    let q = butterfly(x.b, x.d, w.first);
    let r = butterfly(p.upper, q.upper, w.second);
    let s = butterfly(p.lower, q.lower, w.third);
    Four {
        a: r.upper,
        b: s.upper,
        c: r.lower,
        d: s.lower,
    }
}

#[tactic(auto, unfolding(crate::specs::Quads::turns_of))]
pub fn turns_at(table: &[f64; 514], r: usize, inverse: bool) -> Turns
    requires { r < 64 }
    ensures { result ≡ turns_of table.now inverse r }
{
    Turns {
        first: twiddle_at(table, 2 * r, inverse),
        second: twiddle_at(table, r, inverse),
        third: twiddle_at(table, r + 64, inverse),
    }
}
