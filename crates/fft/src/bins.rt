// How the 257 bins of a spectrum lie in its 514 numbers. The definitions read them in pairs.
ghost use Rattle.std.specs.Prelude.{◌≡◌, ◌≤◌, length, List, Float, refl};
ghost use Rattle.complex.specs.Complexes.{get_c, put_c};

use complex::Complex;
use complex_fft::points;

pub trait Bins {
    // What the numbers are in pairs.
    ghost in_pairs: { List Float → List Float };

    fn get(s: &[f64; 514], k: usize) -> Complex
        requires { k ≤ 256 }
        ensures { result ≡ get_c (in_pairs s.now) k };

    fn put(s: &mut [f64; 514], k: usize, z: Complex)
        requires { k ≤ 256 }
        ensures { in_pairs s.new ≡ put_c (in_pairs s.old) k z };

    ghost keeps_length: { (s : List Float) → length (in_pairs s) ≡ length s };
}

// Each bin's real part and then its imaginary part.
pub struct Pairs;

impl Bins for Pairs {
    ghost in_pairs = { λ s. s };

    ghost keeps_length = { λ _. refl };

    fn get(s: &[f64; 514], k: usize) -> Complex {
        points::get(s, k)
    }

    fn put(s: &mut [f64; 514], k: usize, z: Complex) {
        points::put(s, k, z);
    }
}

// All real parts and then all imaginary parts, as crate layout stores them.
pub struct Parts;

impl Bins for Parts {
    ghost use Rattle.layout.specs.Layout.{paired};
    ghost use Rattle.layout.proofs.Moved.{length-paired};

    ghost in_pairs = { paired };

    ghost keeps_length = { length-paired };

    fn get(s: &[f64; 514], k: usize) -> Complex {
        layout::get(s, k)
    }

    fn put(s: &mut [f64; 514], k: usize, z: Complex) {
        layout::put(s, k, z);
    }
}
