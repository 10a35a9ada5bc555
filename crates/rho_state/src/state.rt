// The state, which the host keeps from call to call; weights and history are lent.
ghost use Rattle.std.specs.Prelude.{◌≡◌, ◌≤◌};
ghost use Rattle.rho_state.specs.State.{taps_of, hangover_of, fresh_of, report_of};

// `default()` is the state of a refused creation: all zero.
#[repr(C)]
#[derive(Clone, Copy, Debug, Default, PartialEq)]
pub struct RhoCanceller {
    pub taps: usize,
    // The newest far sample stands at `pos` of the history.
    pub pos: usize,
    // The freeze that a loud pair sets, in pairs, and what is left of it.
    pub hangover_samples: u32,
    pub hangover_remaining: u32,
    pub near_power: f64,
    pub residual_power: f64,
    pub divergence_resets: u64,
}

// What the host is told: the resets since creation, and whether any freeze is left.
#[repr(C)]
#[derive(Clone, Copy, Debug, Default, PartialEq, Eq)]
pub struct Report {
    pub divergence_resets: u64,
    pub double_talk: bool,
}

impl RhoCanceller {
    // The state of creation and of reset, which keeps the resets.
    pub fn fresh(taps: usize, hangover_samples: u32, divergence_resets: u64) -> RhoCanceller
        requires { 1 ≤ taps }
        ensures { result ≡ fresh_of taps hangover_samples divergence_resets }
    {
        RhoCanceller {
            taps,
            pos: taps - 1,
            hangover_samples,
            divergence_resets,
            ..RhoCanceller::default()
        }
    }

    pub fn report(&self) -> Report
        ensures { result ≡ report_of self.now }
    {
        Report {
            divergence_resets: self.divergence_resets,
            double_talk: 0 < self.hangover_remaining,
        }
    }
}

// floor(tail * rate / 1000), at least 1.
#[tactic(auto, using(std::proofs::lemmas::Bool::Decides::nat_tests), unfolding(laws::specs::Choice::pick, crate::specs::State::taps_of))]
pub fn taps_of(sample_rate: u32, tail_ms: u32) -> u64
    ensures { result ≡ taps_of sample_rate tail_ms }
{
    (u64::from(sample_rate) * u64::from(tail_ms) / 1000).max(1)
}

// floor(15 * rate / 1000).
#[tactic(auto, unfolding(crate::specs::State::hangover_of))]
pub fn hangover_of(sample_rate: u32) -> u32
    requires { sample_rate ≤ 48000 }
    ensures { result ≡ hangover_of sample_rate }
{
    15 * sample_rate / 1000
}
