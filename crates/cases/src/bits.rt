// Numbers by their bits, and one number for all that a buffer holds.

ghost use Rattle.std.specs.Prelude.{◌≡◌, ◌+◌, ◌*◌, ◌%◌, ◌^◌};

// Any word but 0, at which zeros would leave no trace.
const START: u64 = 0x9e37_79b9_7f4a_7c15;

/// A number whose bits stand in the low part of a word.
pub trait Bits: Copy {
    fn from_word(word: u64) -> Self;

    fn to_word(self) -> u64;
}

impl Bits for f64 {
    fn from_word(word: u64) -> f64 {
        numbers::from_bits(word)
    }

    fn to_word(self) -> u64 {
        numbers::to_bits(self)
    }
}

impl Bits for f32 {
    fn from_word(word: u64) -> f32 {
        numbers::from_bits32(low(word))
    }

    fn to_word(self) -> u64 {
        u64::from(numbers::to_bits32(self))
    }
}

impl Bits for u8 {
    fn from_word(word: u64) -> u8 {
        (word % 256) as u8
    }

    fn to_word(self) -> u64 {
        u64::from(self)
    }
}

/// Each number's bits go in, and the word is turned. Both can be undone, so one number that differs always shows; several could make
/// up for each other, by one chance in 2^64.
pub fn hash<T: Bits>(buffer: &[T]) -> u64 {
    hash_from(START, buffer)
}

/// The same of bytes. Their number goes in before them.
pub fn hash_bytes(bytes: &[u8]) -> u64 {
    hash_from(turned(START ^ bytes.len() as u64), bytes)
}

fn hash_from<T: Bits>(start: u64, buffer: &[T]) -> u64 {
    buffer
        .iter()
        .fold(start, |word, x| turned(word ^ x.to_word()))
}

/// The word after this one, by Marsaglia's xorshift. All words but 0 lie on one ring, and 0 stays.
pub fn turned(word: u64) -> u64 {
    let a = word ^ (word << 13);
    let b = a ^ (a >> 7);
    b ^ (b << 17)
}

/// The halves of a word, the high one first.
pub fn halves(word: u64) -> (u32, u32)
    ensures { result.0 * 2 ^ 32 + result.1 ≡ word }
{
    ((word >> 32) as u32, low(word))
}

fn low(word: u64) -> u32
    ensures { result ≡ word % 2 ^ 32 }
{
    (word % 0x1_0000_0000) as u32
}

/// The word of two halves. A number that is no half counts from the left, which then differs.
pub fn joined(high: u64, low: u64) -> u64 {
    (high << 32) ^ low
}
