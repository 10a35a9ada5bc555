// The transform with its table, made once a block. An inverse gives one half of its samples, and how many of all 512 went over.
//
// The scratch is lent beside it: the compiler would make one in it elsewhere, and copy it, at 8 KB of a host's stack. What it holds between
// two transforms is open.
ghost use Rattle.std.specs.Prelude.{◌≡◌, length, take};
ghost use Rattle.trig.specs.Tables.{recombination};
ghost use Rattle.fft.specs.Calls.{spectrum_of, samples_of, overs_of};
ghost use Rattle.tau_spectra.specs.Windows.{latter};

#[derive(Drop)]
pub struct Transform {
    table: [f64; 514],
    ghost is_table: { table ≡ recombination },
}

impl Transform {
    pub fn new() -> Transform {
        Transform {
            table: trig::recombination(),
        }
    }

    pub fn spectrum(&self, scratch: &mut [f64; 1024], window: &[f32; 512], bins: &mut [f64])
        requires { length bins.old ≡ 514 }
        ensures { bins.new ≡ spectrum_of window.now }
    {
        fft::forward_with(&self.table, scratch, window, bins).unwrap();
    }

    pub fn first_half(
        &self,
        scratch: &mut [f64; 1024],
        bins: &[f64; 514],
        samples: &mut [f32],
    ) -> u32
        requires { length samples.old ≡ 256 }
        ensures samples_after { samples.new ≡ take 256 (samples_of bins.now) }
        ensures overs { result ≡ overs_of bins.now }
    {
        let overs = fft::inverse_half_with(&self.table, scratch, bins, false, samples);
        overs.unwrap() as u32
    }

    pub fn later_half(
        &self,
        scratch: &mut [f64; 1024],
        bins: &[f64; 514],
        samples: &mut [f32; 256],
    ) -> u32
        ensures samples_after { samples.new ≡ latter (samples_of bins.now) }
        ensures overs { result ≡ overs_of bins.now }
    {
        let overs = fft::inverse_half_with(&self.table, scratch, bins, true, samples);
        overs.unwrap() as u32
    }
}
