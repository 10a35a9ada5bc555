// What a line gives the recipe of.
use crate::Fields;
use crate::buffers::Lent;
use cases::Recipe;
use tau_state::state::TauCanceller;

/// Far's samples by the gain, each product and each sum rounded, as far as both go. A gain of +0.0 is none, and leaves near as it is.
pub fn echo(gain: u32, far: &[f32], near: &mut [f32]) {
    if gain == 0 {
        return;
    }
    let gain = numbers::from_bits32(gain);
    for (near, far) in near.iter_mut().zip(far) {
        *near = *near + gain * *far;
    }
}

/// An array of the state, or a lent buffer, is made anew, by fields 0 to 4, and by 5, which it is: from 0 on in the order of fields 28 to
/// 38, and 11 the powers. Nothing where there is no such array.
pub fn remake(fields: &Fields, state: &mut TauCanceller, lent: &mut Lent) -> Option<()> {
    let recipe = Recipe::of_words([fields[0], fields[1], fields[2], fields[3], fields[4]]);
    match fields[5] {
        0 => recipe.fill(&mut state.near_carry),
        1 => recipe.fill(&mut state.far_carry),
        2 => recipe.fill(&mut state.far.window),
        3 => recipe.fill(&mut state.mic.far_power_mean),
        4 => recipe.fill(&mut state.mic.suppressor.echo_power),
        5 => recipe.fill(&mut state.mic.suppressor.error_power),
        6 => recipe.fill(&mut state.mic.suppressor.gain),
        7 => recipe.fill(&mut state.mic.suppressor.error_window),
        8 => recipe.fill(lent.shadow),
        9 => recipe.fill(lent.output),
        10 => fill_spectra(recipe, lent.spectra, lent.powers),
        11 => recipe.fill(lent.powers),
        _ => return None,
    }
    Some(())
}

// With each bin's power, as far as both go.
fn fill_spectra(recipe: Recipe, spectra: &mut [f64], powers: &mut [f64]) {
    recipe.fill(spectra);
    for (power, bin) in powers.iter_mut().zip(spectra.chunks_exact(2)) {
        *power = bin[0] * bin[0] + bin[1] * bin[1];
    }
}
