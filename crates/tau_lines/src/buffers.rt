// What a call is lent.

/// The buffers of an engine. They have room for a length that is too large.
#[derive(Drop)]
pub struct Buffers {
    pub shadow: [f64; 16456],
    pub output: [f64; 16456],
    pub spectra: [f64; 16456],
    pub powers: [f64; 8232],
}

/// The front of each, as far as it is lent.
#[derive(Drop)]
pub struct Lent<'a> {
    pub shadow: &'a mut [f64],
    pub output: &'a mut [f64],
    pub spectra: &'a mut [f64],
    pub powers: &'a mut [f64],
}

impl Buffers {
    pub fn new() -> Buffers {
        Buffers {
            shadow: [0.0; 16456],
            output: [0.0; 16456],
            spectra: [0.0; 16456],
            powers: [0.0; 8232],
        }
    }

    /// As much of each as is asked for, or nothing where one is not so long.
    pub fn lend(
        &mut self,
        shadow_len: usize,
        output_len: usize,
        spectra_len: usize,
        powers_len: usize,
    ) -> Option<Lent<'_>> {
        let Buffers {
            shadow,
            output,
            spectra,
            powers,
        } = self;
        Some(Lent {
            shadow: shadow.get_mut(..shadow_len)?,
            output: output.get_mut(..output_len)?,
            spectra: spectra.get_mut(..spectra_len)?,
            powers: powers.get_mut(..powers_len)?,
        })
    }
}
