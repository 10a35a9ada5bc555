// What a microphone's part of a block is given.
ghost use Rattle.std.specs.Prelude.{◌≤◌};

use tau_spectra::ring::FarRing;

// 256 near samples, of which the first `valid` came from a caller; `adapt` says that it is no flush.
#[derive(Clone, Copy)]
pub struct MicBlock<'a> {
    pub near: &'a [f32; 256],
    pub valid: usize,
    pub adapt: bool,
    pub ghost valid_bound: { valid ≤ 256 },
}

// What was heard from the loudspeaker: the ring of spectra, the far power of each bin, whether it has sounded in any block so far, and
// whether it drives this one.
#[derive(Clone, Copy)]
pub struct Played<'a, 'b> {
    pub ring: FarRing<'a>,
    pub far_power: &'b [f64; 257],
    pub sounded: bool,
    pub active: bool,
}
