// What f32 and f64 have alike. The logic has one kind of number for both, which `float` reads, so that a promise of either is one promise.
ghost use Rattle.std.specs.Prelude.{◌≡◌, ℕ, is_nan, from_bits, to_bits};
ghost use Rattle.std.specs.Float.{Float, Format, binary32, binary64};
ghost use Rattle.std.specs.Float.Ieee.{lt};
ghost use Rattle.numbers.specs.Promises.{IsFinite, Abs, Max};

pub trait Float: Copy {
    // A pattern: an unsigned integer of as many bits.
    type Bits;

    ghost float: { Self → Float };

    ghost pattern: { Self.Bits → ℕ };

    ghost format: { Format };

    fn is_nan(self) -> bool
        ensures { result ≡ is_nan (float self) };

    fn is_less(self, other: Self) -> bool
        ensures { result ≡ lt (float self) (float other) };

    fn is_finite(self) -> bool
        ensures { IsFinite (float self) result };

    fn abs(self) -> Self
        ensures { Abs (float self) (float result) };

    // The other one where one is a NaN. Not the library's, which leaves open which of +0.0 and -0.0 is given: here the first.
    fn max(self, other: Self) -> Self
        ensures { Max (float self) (float other) (float result) }
    {
        if self.is_nan() {
            return other;
        }
        if self.is_less(other) { other } else { self }
    }

    // Every NaN's pattern is read as the one NaN.
    fn from_bits(b: Self::Bits) -> Self
        ensures { float result ≡ from_bits format (pattern b) };

    fn to_bits(self) -> Self::Bits
        ensures { pattern result ≡ to_bits format (float self) };
}

impl Float for f64 {
    type Bits = u64;

    ghost float = { λ x. x };

    ghost pattern = { λ b. b };

    ghost format = { binary64 };

    fn is_nan(self) -> bool {
        f64::is_nan(self)
    }

    fn is_less(self, other: f64) -> bool {
        self < other
    }

    #[tactic(auto, using(crate::proofs::Library::finite_is))]
    fn is_finite(self) -> bool {
        f64::is_finite(self)
    }

    #[tactic(auto, using(crate::proofs::Library::size_is))]
    fn abs(self) -> f64 {
        f64::abs(self)
    }

    fn from_bits(b: u64) -> f64 {
        if 0x7ff0_0000_0000_0000 < b % 0x8000_0000_0000_0000 {
            return f64::NAN;
        }
        f64::from_bits(b)
    }

    fn to_bits(self) -> u64 {
        if f64::is_nan(self) {
            return 0x7ff8_0000_0000_0000;
        }
        f64::to_bits(self)
    }
}

impl Float for f32 {
    type Bits = u32;

    ghost float = { λ x. x };

    ghost pattern = { λ b. b };

    ghost format = { binary32 };

    fn is_nan(self) -> bool {
        f32::is_nan(self)
    }

    fn is_less(self, other: f32) -> bool {
        self < other
    }

    #[tactic(auto, using(crate::proofs::Library::finite_is))]
    fn is_finite(self) -> bool {
        f32::is_finite(self)
    }

    #[tactic(auto, using(crate::proofs::Library::size_is))]
    fn abs(self) -> f32 {
        f32::abs(self)
    }

    fn from_bits(b: u32) -> f32 {
        if 0x7f80_0000 < b % 0x8000_0000 {
            return f32::NAN;
        }
        f32::from_bits(b)
    }

    fn to_bits(self) -> u32 {
        if f32::is_nan(self) {
            return 0x7fc0_0000;
        }
        f32::to_bits(self)
    }
}
