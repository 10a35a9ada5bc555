// Reading.
ghost use Rattle.std.specs.Prelude.{◌≡◌, ◌+◌, ◌≤◌, length};

use crate::error::RecordsError;
use crate::front::{Front, at_front};
use pipe::{ProgramError, read_some};
use record::{Header, Kind};
use std::io::Read;

// What is read of the input and not handed out yet: the block's bytes from `from` up to `end`. The first of them is the input's byte number
// `place`. The block has room for the largest record, of 4,102 bytes, and for 32 KiB that are read ahead of it.
#[derive(Clone, Copy)]
pub struct Input {
    block: [u8; 36870],
    from: usize,
    end: usize,
    place: u64,
    ended: bool,
    ghost room: { length block ≡ 36870 },
    ghost lies: { (from ≤ end) × (end ≤ length block) },
}

// A whole record, which begins at the input's byte number `place`.
#[derive(Clone, Copy)]
pub struct Record<'a> {
    pub kind: Kind,
    pub payload: &'a [u8],
    pub place: u64,
}

impl Input {
    ghost use Rattle.std.specs.Prelude.{◌-◌, ◌<◌, false, take, drop};
    ghost use Rattle.std.specs.Borrow.{sem};
    ghost use Rattle.std.specs.Io.BufRead.{Rests};
    ghost use Rattle.record_input.specs.contracts.reading.Input.{the_row};
    ghost use Rattle.record_input.specs.Reading.{held_of, IsStart, Says, SaysAtOnce, Found, Passed, Grew};

    // An input of which nothing is read.
    pub fn new() -> Input
        ensures { IsStart result }
    {
        Input {
            block: [0; 36870],
            from: 0,
            end: 0,
            place: 0,
            ended: false,
        }
    }

    // The next record, or nothing at the input's end. The record stays in the block until the next call.
    pub fn next_record<R: Read>(
        &mut self,
        stdin: &mut R,
    ) -> Result<Option<Record<'_>>, RecordsError>
        ensures* says { sem 𝓛 (Rests the_row self.entry (λ new. Says self.old.place result new)) }
        ensures at_once { SaysAtOnce self.old.place result }
    {
        let Some(header) = self.find(stdin)? else {
            return Ok(None);
        };
        let from = self.from + 6;
        let size = header.size();
        let end = self.from + size;
        let place = self.place;
        self.pass(size);
        Ok(Some(Record {
            kind: header.kind,
            payload: self.part(from, end),
            place,
        }))
    }

    // Goes behind a record of so many bytes, at the front of what is held.
    #[tactic(auto, using(laws::specs::Choice::choices, crate::proofs::Turns::saturates), unfolding(crate::specs::Front::place_after))]
    fn pass(&mut self, size: usize)
        requires { self.old.from + size ≤ self.old.end }
        ensures { Passed self.old size self.new }
    {
        let end = self.from + size;
        let place = self.place;
        self.from = end;
        self.place = place.saturating_add(size as u64);
    }

    // Reads until a whole record is at the front of what is held, or none follows.
    fn find<R: Read>(&mut self, stdin: &mut R) -> Result<Option<Header>, RecordsError>
        ensures { Found self.old.place result self.new }
    {
        loop {
            match at_front(self.held(), self.ended) {
                Ok(Front::Whole(header)) => return Ok(Some(header)),
                Ok(Front::End) => return Ok(None),
                Ok(Front::Begun) => self.read_more(stdin)?,
                Err(refusal) => {
                    return Err(RecordsError::Refused {
                        refusal,
                        place: self.place,
                    });
                }
            }
        }
    }

    fn held(&self) -> &[u8]
        ensures { result.now ≡ held_of self.now }
    {
        self.part(self.from, self.end)
    }

    fn part(&self, from: usize, end: usize) -> &[u8]
        requires in_bounds { (from ≤ end) × (end ≤ length self.now.block) }
        ensures { result.now ≡ take (end - from) (drop from self.now.block) }
    {
        &self.block[from..end]
    }

    // One read behind what is held, which goes to the block's front first.
    fn read_more<R: Read>(&mut self, stdin: &mut R) -> Result<(), RecordsError>
        requires ended_value { (self.old.ended ≡ false) × (self.old.end - self.old.from < length self.old.block) }
        ensures { Grew self.old result self.new }
    {
        let left = self.end - self.from;
        self.block.copy_within(self.from..self.end, 0);
        self.from = 0;
        self.end = left;
        let Some(more) = read_some(stdin, &mut self.block[left..]) else {
            return Err(RecordsError::Failed(ProgramError::ReadFailed));
        };
        self.end = left + more;
        self.ended = more == 0;
        Ok(())
    }
}
