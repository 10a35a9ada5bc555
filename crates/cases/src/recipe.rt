// What a list has for a buffer of numbers that a case is run on: how they are made.
use crate::bits::{Bits, halves, turned};

/// Numbers with the bits `base ^ (word & mask)`, the words coming one from the other from a seed on. The Rust that answered the list
/// made the same numbers (oracle/inputs.rs).
#[derive(Clone, Copy)]
pub struct Noise {
    pub seed: u64,
    pub base: u64,
    pub mask: u64,
}

impl Noise {
    pub fn fill<T: Bits>(self, out: &mut [T]) {
        let mut word = self.seed;
        for x in out {
            word = turned(word);
            *x = T::from_word(self.base ^ (word & self.mask));
        }
    }
}

/// A number by its bits, and its place, which counts where a buffer has it.
#[derive(Clone, Copy)]
pub struct Mark {
    pub place: u64,
    pub bits: u64,
}

impl Mark {
    /// Of a word: the place is the high half, and the number the low one.
    pub fn of_word(word: u64) -> Mark {
        let (place, bits) = halves(word);
        Mark {
            place: u64::from(place),
            bits: u64::from(bits),
        }
    }

    pub fn put<T: Bits>(self, out: &mut [T]) {
        if let Some(x) = out.get_mut(self.place as usize) {
            *x = T::from_word(self.bits);
        }
    }
}

/// Noise but for one number.
#[derive(Clone, Copy)]
pub struct Recipe {
    pub noise: Noise,
    pub mark: Mark,
}

impl Recipe {
    /// By five fields: the seed, the base, the mask, the place and the bits of the number there.
    pub fn of_words(fields: [u64; 5]) -> Recipe {
        let [seed, base, mask, place, bits] = fields;
        Recipe {
            noise: Noise { seed, base, mask },
            mark: Mark { place, bits },
        }
    }

    /// By three: the seed; base and mask as halves; the place and the bits of the number there as halves.
    pub fn of_halves(fields: [u64; 3]) -> Recipe {
        let [seed, kind, mark] = fields;
        let (base, mask) = halves(kind);
        Recipe {
            noise: Noise {
                seed,
                base: u64::from(base),
                mask: u64::from(mask),
            },
            mark: Mark::of_word(mark),
        }
    }

    pub fn fill<T: Bits>(self, out: &mut [T]) {
        self.noise.fill(out);
        self.mark.put(out);
    }
}
