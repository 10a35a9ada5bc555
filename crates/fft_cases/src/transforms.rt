// The transform's functions, by their letters. Each is lent the first part of two buffers of 1,024 numbers, so that a length can be
// too large too. Both buffers hold the numbers that were made, one of them narrowed to samples: where a function refuses, they
// still stand in the buffer that it would have written.
ghost use Rattle.std.specs.Prelude.{◌≤◌};

use refusal::{Refusal, number};

// What a function answers: the number of a refusal, and above it how many samples of an inverse went over. None where no function has the
// letter. A letter in upper case differs only in how the numbers are made. `b` is both ways, `g` and `j` are `f` and `i` over a lent table
// and scratch, which no other letter pays for, and `h` and `l` the first and the later half of what `j` gives.
pub fn run(letter: u8, buffer: &mut [f64; 1024], given: usize, room: usize) -> Option<u64>
    requires within { (given ≤ 1024) × (room ≤ 1024) }
{
    let letter = letter.to_ascii_lowercase();
    let forward = |samples: &[f32], bins: &mut [f64]| fft::forward(samples, bins);
    let inverse = |bins: &[f64], samples: &mut [f32]| fft::inverse(bins, samples);
    let answer = match letter {
        b'f' => spectrum_by(forward, buffer, given, room),
        b'g' => spectrum_by(
            |samples, bins| {
                fft::forward_with(&trig::recombination(), &mut [0.0; 1024], samples, bins)
            },
            buffer,
            given,
            room,
        ),
        b'i' => samples_by(inverse, buffer, given, room),
        b'j' => samples_by(
            |bins, samples| {
                fft::inverse_with(&trig::recombination(), &mut [0.0; 1024], bins, samples)
            },
            buffer,
            given,
            room,
        ),
        b'h' | b'l' => samples_by(
            |bins, half| {
                let later = letter == b'l';
                fft::inverse_half_with(&trig::recombination(), &mut [0.0; 1024], bins, later, half)
            },
            buffer,
            given,
            room,
        ),
        b'b' => match spectrum_by(forward, buffer, given, 514) {
            0 => samples_by(inverse, buffer, 514, room),
            refused => refused,
        },
        b'c' => u64::from(number(&complex_fft::complex_forward(&mut buffer[..given]))),
        b'r' => u64::from(number(&complex_fft::complex_inverse(&mut buffer[..given]))),
        _ => return None,
    };
    Some(answer)
}

fn spectrum_by<F: FnOnce(&[f32], &mut [f64]) -> Result<(), Refusal>>(
    forward: F,
    buffer: &mut [f64; 1024],
    given: usize,
    room: usize,
) -> u64
    requires callable { F.IsAlwaysCallable forward }
    requires within { (given ≤ 1024) × (room ≤ 1024) }
{
    let mut samples = [0.0f32; 1024];
    narrow_all(buffer, &mut samples);
    u64::from(number(&forward(&samples[..given], &mut buffer[..room])))
}

fn samples_by<F: FnOnce(&[f64], &mut [f32]) -> Result<usize, Refusal>>(
    inverse: F,
    buffer: &mut [f64; 1024],
    given: usize,
    room: usize,
) -> u64
    requires callable { F.IsAlwaysCallable inverse }
    requires within { (given ≤ 1024) × (room ≤ 1024) }
{
    let mut samples = [0.0f32; 1024];
    narrow_all(buffer, &mut samples);
    let answer = inverse(&buffer[..given], &mut samples[..room]);
    for (number, sample) in buffer.iter_mut().zip(&samples) {
        *number = numbers::widen(*sample);
    }
    match answer {
        Ok(overs) => (overs as u64 & 0xffff_ffff) << 32,
        Err(refusal) => u64::from(u32::from(refusal)),
    }
}

// In place: an array made by value is copied once more.
fn narrow_all(buffer: &[f64; 1024], samples: &mut [f32; 1024]) {
    for (sample, number) in samples.iter_mut().zip(buffer) {
        *sample = numbers::narrow(*number);
    }
}
