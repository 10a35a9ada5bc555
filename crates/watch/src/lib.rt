// TauCanceller watched: pairs, flushes and resets go in; a line for each stretch of blocks with one reason goes to standard output, as soon
// as the stretch ends, and last the summary.
//
// A call reports on its last block only. So pairs go in by pieces that fill one block at most, which changes no sample and no reason: how
// a stream is cut into calls does not matter (tau_streams). TauCanceller has four partitions and suppression, as in program `aec`.
#![tactic(auto)]

pub mod lent;

use capture::Engine;
use pipe::{ProgramError, Streams};
use reasons::course::Course;
use std::io::{Read, Write};
use std::marker::Model;

// The engine, where the run is, and how many blocks had each reason, and overs. At most 255 pairs wait for their block.
#[derive(Clone, Copy)]
pub struct Watch {
    pub engine: Engine,
    pub course: Course,
    pub counts: [u64; 11],
}

impl Model for Watch {
    ghost use Rattle.std.specs.Prelude.{◌≤◌};
    ghost use Rattle.watch.specs.Watched.{Watched};

    ghost Value = { Watched };

    ghost view = { λ w. record { engine = w.engine; course = w.course; counts = w.counts } };

    ghost inverse = { λ w. record { engine = w.engine; course = w.course; counts = w.counts } };

    ghost invariant = { λ w. w.engine.state.carried ≤ 255 };
}

impl Watch {
    ghost use Rattle.std.specs.Prelude.{◌≡◌, length, replicate, OnOk};
    ghost use Rattle.tau_state.specs.Constants.{zero64};
    ghost use Rattle.watch.specs.Watched.{begun_of, flushed_by, reset_by, pieces_of, Finished};

    pub fn new() -> Self
        ensures begun { record { engine = result.engine; course = result.course } ≡ begun_of (replicate 2056 zero64) (replicate 2056 zero64) (replicate 2056 zero64) (replicate 1028 zero64) }
        ensures counts { result.counts ≡ replicate 11 0 }
    {
        Watch {
            engine: Engine::new(),
            course: Course::start(),
            counts: [0; 11],
        }
    }

    // The whole pairs of `bytes`. What is said of the run holds where all was written: after a failed write the rest of them is left.
    pub fn pairs<R: Read, W: Write, E: Write>(
        &mut self,
        streams: &mut Streams<R, W, E>,
        bytes: &[u8],
    ) -> Result<(), ProgramError>
        ensures watched { OnOk result (self.new ≡ pieces_of (length bytes.now) self.old bytes.now) }
        ensures input_stays { streams.new.input ≡ streams.old.input }
        ensures errors_stay { streams.new.errors ≡ streams.old.errors }
    {
        lent::pairs(
            &mut streams.output,
            &mut self.engine.state,
            &mut self.course,
            &mut self.engine.shadow,
            &mut self.engine.output,
            &mut self.engine.spectra,
            &mut self.engine.powers,
            &mut self.counts,
            bytes,
        )
    }

    // What waits for its block is a block of its own.
    pub fn flush<R: Read, W: Write, E: Write>(
        &mut self,
        streams: &mut Streams<R, W, E>,
    ) -> Result<(), ProgramError>
        ensures flushed { self.new ≡ flushed_by self.old }
        ensures input_stays { streams.new.input ≡ streams.old.input }
        ensures errors_stay { streams.new.errors ≡ streams.old.errors }
    {
        lent::flush(
            &mut streams.output,
            &mut self.engine.state,
            &mut self.course,
            &mut self.engine.shadow,
            &mut self.engine.output,
            &mut self.engine.spectra,
            &mut self.engine.powers,
            &mut self.counts,
        )
    }

    // The engine is reset, which a line says.
    pub fn reset<R: Read, W: Write, E: Write>(
        &mut self,
        streams: &mut Streams<R, W, E>,
    ) -> Result<(), ProgramError>
        ensures reset { record { engine = self.new.engine; course = self.new.course } ≡ reset_by self.old.engine self.old.course }
        ensures counts { self.new.counts ≡ self.old.counts }
        ensures input_stays { streams.new.input ≡ streams.old.input }
        ensures errors_stay { streams.new.errors ≡ streams.old.errors }
    {
        lent::reset(
            &mut streams.output,
            &mut self.engine.state,
            &mut self.course,
            &mut self.engine.shadow,
            &mut self.engine.output,
            &mut self.engine.spectra,
            &mut self.engine.powers,
        )
    }

    // The last stretch and the summary.
    pub fn finish<R: Read, W: Write, E: Write>(
        &self,
        streams: &mut Streams<R, W, E>,
    ) -> Result<(), ProgramError>
        ensures finished { OnOk result (Finished self.now.course self.now.counts (W.contents streams.old.output) (W.contents streams.new.output)) }
        ensures input_stays { streams.new.input ≡ streams.old.input }
        ensures errors_stay { streams.new.errors ≡ streams.old.errors }
    {
        lent::finish(&mut streams.output, self.course, &self.counts)
    }
}
