// The real transform of 512 samples, both ways, as `RealFft` in fft.rs has it.
#![tactic(auto)]

mod bins;
mod real_fft;

pub use real_fft::{
    Inverted, forward, forward_parts, forward_with, inverse, inverse_half_parts, inverse_half_with,
    inverse_with,
};
