// The canceller as the programs run it.
use std::marker::Model;
use tau::Answer;
use tau_state::state::TauCanceller;

// TauCanceller with four partitions and suppression, and the four buffers that each of its calls is lent.
#[derive(Clone, Copy)]
pub struct Engine {
    pub state: TauCanceller,
    pub shadow: [f64; 2056],
    pub output: [f64; 2056],
    pub spectra: [f64; 2056],
    pub powers: [f64; 1028],
}

impl Model for Engine {
    ghost use Rattle.tau_frame.specs.Pairs.{Engine};

    ghost Value = { Engine };

    ghost view = { λ e. record { state = e.state; shadow = e.shadow; output = e.output; spectra = e.spectra; powers = e.powers } };

    ghost inverse = { λ e. record { state = e.state; shadow = e.shadow; output = e.output; spectra = e.spectra; powers = e.powers } };
}

impl Engine {
    ghost use Rattle.std.specs.Prelude.{◌≡◌, ◌*◌, ◌≤◌, length};
    ghost use Rattle.tau.specs.Calls.{reset_of};
    ghost use Rattle.tau_streams.specs.Stream.{begun_by};
    ghost use Rattle.capture.specs.Feeds.{fed_of, finished_of};
    ghost use Rattle.capture.specs.Program.{start_of, left_by};

    pub fn new() -> Self
        ensures { result ≡ start_of }
    {
        let mut shadow = [0.0f64; 2056];
        let mut output = [0.0f64; 2056];
        let mut spectra = [0.0f64; 2056];
        let mut powers = [0.0f64; 1028];
        let started = tau::create(4, true, &mut shadow, &mut output, &mut spectra, &mut powers);
        Engine {
            state: started.state,
            shadow,
            output,
            spectra,
            powers,
        }
    }

    // As the crate's `feed`; the state that it answers is the engine's from then on.
    pub fn feed(&mut self, held: &[u8], bytes: &mut [u8]) -> Answer
        ensures engine_after { self.new ≡ left_by (fed_of self.old held.now bytes.old) }
        ensures answer { result ≡ (fed_of self.old held.now bytes.old).answer }
        ensures bytes_after { bytes.new ≡ (fed_of self.old held.now bytes.old).bytes }
        ensures delivered_fits { 4 * result.delivered ≤ length bytes.new }
    {
        let answer = crate::feed(
            self.state,
            &mut self.shadow,
            &mut self.output,
            &mut self.spectra,
            &mut self.powers,
            held,
            bytes,
        );
        self.state = answer.state;
        answer
    }

    // As the crate's `finish`.
    pub fn finish(&mut self, bytes: &mut [u8]) -> Answer
        ensures engine_after { self.new ≡ left_by (finished_of self.old bytes.old) }
        ensures answer { result ≡ (finished_of self.old bytes.old).answer }
        ensures bytes_after { bytes.new ≡ (finished_of self.old bytes.old).bytes }
        ensures delivered_fits { 4 * result.delivered ≤ length bytes.new }
    {
        let flushed = crate::finish(
            self.state,
            &mut self.shadow,
            &mut self.output,
            &mut self.spectra,
            &mut self.powers,
            bytes,
        );
        self.state = flushed.state;
        flushed
    }

    // Refused, it changes nothing, as TauCanceller's own.
    pub fn reset(&mut self)
        ensures { self.new ≡ begun_by (reset_of self.old) }
    {
        let started = tau::reset(
            self.state,
            &mut self.shadow,
            &mut self.output,
            &mut self.spectra,
            &mut self.powers,
        );
        self.state = started.state;
    }
}
