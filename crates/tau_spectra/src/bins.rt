// Bin k of a spectrum, or of a partition of a buffer.
ghost use Rattle.std.specs.Prelude.{◌≡◌, ◌<◌, length};
ghost use Rattle.complex.specs.Complexes.{get_c, put_c};
ghost use Rattle.tau_spectra.specs.Bins.{power_at};

use complex::Complex;

pub fn get(s: &[f64], k: usize) -> Complex
    requires s_len { length s.now ≡ 514 }
    requires k_bound { k < 257 }
    ensures { result ≡ get_c s.now k }
{
    Complex::new(s[2 * k], s[2 * k + 1])
}

pub fn put(s: &mut [f64], k: usize, z: Complex)
    requires s_len { length s.old ≡ 514 }
    requires k_bound { k < 257 }
    ensures { s.new ≡ put_c s.old k z }
{
    s[2 * k] = z.re;
    s[2 * k + 1] = z.im;
}

pub fn power(s: &[f64], k: usize) -> f64
    requires s_len { length s.now ≡ 514 }
    requires k_bound { k < 257 }
    ensures { result ≡ power_at s.now k }
{
    let z = get(s, k);
    z.re * z.re + z.im * z.im
}
