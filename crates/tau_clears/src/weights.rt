// What is done to all weights of a filter at once.
ghost use Rattle.std.specs.Prelude.{◌≡◌, length};
ghost use Rattle.tau_clears.specs.Weights.{cleared, halved, leaked};

#[tactic(auto, unfolding(crate::specs::Weights::cleared))]
pub fn clear(d: &mut [f64])
    ensures { d.new ≡ cleared d.old }
{
    d.fill(0.0);
}

// The other filter's weights. A loop: for std's copy_from_slice the host library would need C's memmove.
pub fn copy(weights: &mut [f64], others: &[f64])
    requires { length others.now ≡ length weights.old }
    ensures { weights.new ≡ others.now }
{
    for k in 0..weights.len() {
        weights[k] = others[k];
    }
}

pub fn halve(weights: &mut [f64])
    ensures { weights.new ≡ halved weights.old }
{
    for weight in weights.iter_mut() {
        *weight = *weight * 0.5;
    }
}

// Every weight moves by leak times its difference from the other filter's.
pub fn leak_to(weights: &mut [f64], others: &[f64], leak: f64)
    requires { length others.now ≡ length weights.old }
    ensures { weights.new ≡ leaked leak others.now weights.old }
{
    for (k, weight) in weights.iter_mut().enumerate() {
        *weight = *weight + leak * (others[k] - *weight);
    }
}
