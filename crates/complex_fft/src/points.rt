// Number i of a buffer that holds complex numbers part by part.
ghost use Rattle.std.specs.Prelude.{◌≡◌, ◌+◌, ◌*◌, ◌<◌, length};
ghost use Rattle.complex.specs.Complexes.{get_c, put_c};

use complex::Complex;

pub fn get(s: &[f64], i: usize) -> Complex
    requires { 2 * i + 1 < length s.now }
    ensures { result ≡ get_c s.now i }
{
    Complex::new(s[2 * i], s[2 * i + 1])
}

pub fn put(s: &mut [f64], i: usize, z: Complex)
    requires { 2 * i + 1 < length s.old }
    ensures { s.new ≡ put_c s.old i z }
{
    s[2 * i] = z.re;
    s[2 * i + 1] = z.im;
}
