// Weights and far spectra as they are stored: of each partition all 257 real parts and then its 257 imaginary parts, so that a loop over the
// bins reads runs of one kind. The definitions read them in pairs, through the map of specs/Layout.
#![tactic(auto)]

ghost use Rattle.std.specs.Prelude.{◌≡◌, ◌<◌};
ghost use Rattle.complex.specs.Complexes.{get_c, put_c, mul_c};
ghost use Rattle.layout.specs.Layout.{paired};

use complex::Complex;

// Bin k of a stored spectrum, or of a stored partition.
pub fn get(s: &[f64; 514], k: usize) -> Complex
    requires { k < 257 }
    ensures { result ≡ get_c (paired s.now) k }
{
    Complex::new(s[k], s[257 + k])
}

pub fn put(s: &mut [f64; 514], k: usize, z: Complex)
    requires { k < 257 }
    ensures { paired s.new ≡ put_c (paired s.old) k z }
{
    s[k] = z.re;
    s[257 + k] = z.im;
}

// Bin k of the weights times bin k of the spectrum that they meet.
pub fn product(weights: &[f64; 514], spectrum: &[f64; 514], k: usize) -> Complex
    requires { k < 257 }
    ensures { result ≡ mul_c (get_c (paired weights.now) k) (get_c (paired spectrum.now) k) }
{
    get(weights, k) * get(spectrum, k)
}
