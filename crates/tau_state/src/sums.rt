// Sums over samples, smoothing, counting.
ghost use Rattle.std.specs.Prelude.{◌≡◌, ◌≤◌};
ghost use Rattle.tau_state.specs.Sums.{energy_of, cross_of};
ghost use Rattle.laws.specs.Counting.{one_more, one_more32};
ghost use Rattle.tau_state.specs.Constants.{smooth_by};

pub fn energy(samples: &[f32; 256], valid: usize) -> f64
    requires { valid ≤ 256 }
    ensures { result ≡ energy_of samples.now valid }
{
    let mut sum = 0.0f64;
    for k in 0..valid {
        let x = numbers::widen(samples[k]);
        sum = sum + x * x;
    }
    sum
}

pub fn cross(a: &[f32; 256], b: &[f32; 256], valid: usize) -> f64
    requires { valid ≤ 256 }
    ensures { result ≡ cross_of a.now b.now valid }
{
    let mut sum = 0.0f64;
    for k in 0..valid {
        sum = sum + numbers::widen(a[k]) * numbers::widen(b[k]);
    }
    sum
}

// a * old + (1 - a) * new.
#[tactic(auto, unfolding(crate::specs::Constants::smooth_by))]
pub fn smooth(a: f64, old: f64, new: f64) -> f64
    ensures { result ≡ smooth_by a old new }
{
    a * old + (1.0 - a) * new
}

// One more, or the same where 64 bits hold no more.
#[tactic(auto, unfolding(laws::specs::Counting::one_more, laws::specs::Choice::pick))]
pub fn one_more(n: u64) -> u64
    ensures { result ≡ one_more n }
{
    n.saturating_add(1)
}

#[tactic(auto, unfolding(laws::specs::Counting::one_more32, laws::specs::Choice::pick))]
pub fn one_more_32(n: u32) -> u32
    ensures { result ≡ one_more32 n }
{
    n.saturating_add(1)
}
