// Sums over the far history, newest first: from `pos` down to 0, then from the top down. Each is a straight run, so that the loops
// have no test of where they are. `history` and `pos` stay two parameters: of a struct the clauses would read `ring.entry.samples.now` and
// `ring.entry.pos` where they read `history.now` and `pos`.
ghost use Rattle.std.specs.Prelude.{◌≡◌, true, ◌<◌, length};
ghost use Rattle.rho_taps.specs.Ring.{next_of, estimate_of, window_energy_of};
ghost use Rattle.rho_taps.specs.Runs.{NoNan, estimate_from, energy_from};

use crate::clean::{clean, widen};

#[derive(Clone, Copy, Default)]
pub struct Sums {
    pub estimate: f64,
    pub energy: f64,
}

impl Sums {
    // With the weights upward and the samples downward.
    fn add<const CLEAN: bool>(self, weights: &[f32], samples: &[f32]) -> Sums
        requires samples_len { length samples.now ≡ length weights.now }
        requires clean_weights { CLEAN ≡ true → NoNan weights.now }
        requires clean_samples { CLEAN ≡ true → NoNan samples.now }
        ensures estimate_value { result.estimate ≡ estimate_from self.estimate weights.now samples.now }
        ensures energy_value { result.energy ≡ energy_from self.energy samples.now }
    {
        let mut estimate = self.estimate;
        let mut energy = self.energy;
        let n = samples.len();
        for k in 0..n {
            let weight = widen::<CLEAN>(weights[k]);
            let x = widen::<CLEAN>(samples[n - 1 - k]);
            estimate = estimate + weight * x;
            energy = energy + x * x;
        }
        Sums { estimate, energy }
    }

    // 32 of each. The two chains of sums take most of the time, and where nothing is tested in them the group's own test costs little.
    fn add_group(self, weights: &[f32], samples: &[f32]) -> Sums
        requires weights_len { length weights.now ≡ 32 }
        requires samples_len { length samples.now ≡ 32 }
        ensures estimate_value { result.estimate ≡ estimate_from self.estimate weights.now samples.now }
        ensures energy_value { result.energy ≡ energy_from self.energy samples.now }
    {
        if clean(weights) & clean(samples) {
            self.add::<true>(weights, samples)
        } else {
            self.add::<false>(weights, samples)
        }
    }

    // In groups, and then what they leave.
    fn add_run(self, weights: &[f32], samples: &[f32]) -> Sums
        requires samples_len { length samples.now ≡ length weights.now }
        ensures estimate_value { result.estimate ≡ estimate_from self.estimate weights.now samples.now }
        ensures energy_value { result.energy ≡ energy_from self.energy samples.now }
    {
        let mut sums = self;
        let n = samples.len();
        for g in 0..n / 32 {
            let at = 32 * g;
            sums = sums.add_group(&weights[at..at + 32], &samples[n - at - 32..n - at]);
        }
        let rest = n % 32;
        sums.add::<false>(&weights[n - rest..], &samples[..rest])
    }
}

// Where the next far sample goes.
#[tactic(auto, using(std::proofs::lemmas::Bool::Decides::nat_tests), unfolding(laws::specs::Choice::pick, crate::specs::Ring::next_of))]
pub fn next_position(pos: usize, taps: usize) -> usize
    requires { pos < taps }
    ensures value { result ≡ next_of pos taps }
    ensures upper_bound { result < taps }
{
    if pos + 1 == taps { 0 } else { pos + 1 }
}

// The echo estimate and the window energy.
pub fn sums_of(weights: &[f32], history: &[f32], pos: usize) -> Sums
    requires weights_len { length weights.now ≡ length history.now }
    requires pos_in_bounds { pos < length history.now }
    ensures estimate_value { result.estimate ≡ estimate_of weights.now history.now pos (length history.now) }
    ensures energy_value { result.energy ≡ window_energy_of history.now pos (length history.now) }
{
    let (first, second) = weights.split_at(pos + 1);
    let (newer, older) = history.split_at(pos + 1);
    Sums::default().add_run(first, newer).add_run(second, older)
}
