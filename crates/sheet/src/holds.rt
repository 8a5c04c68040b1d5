// A held sheet: a sheet that holds up to 32 marks back from the sheet below it.
ghost use Rattle.std.specs.Prelude.{◌≡◌, ◌<◌, ◌≤◌, min, [], length, MatchOption, OnOk, slice_set};
ghost use Rattle.sheet.specs.Holds.{HeldPuts, Pops, Shows, holding, overlaid};
ghost use Rattle.sheet.specs.Marks.{Writes};
ghost use Rattle.sheet.specs.Overlays.{Absent, HeldAt, over_short};

use crate::records::Record;
use crate::{Readable, Writable, check_block};
use denial::Denial;

// No held sheet holds more marks.
pub const MAX_HELD: usize = 32;

// Marks that are held and not flushed are lost when the sheet is dropped.
#[derive(Drop)]
pub struct Held<S> {
    below: S,
    // The first records are in use, as many as `count` says. An array, since with a vector of fixed capacity in its place a held sheet over
    // a borrowed one could not be passed by value inside another type.
    records: [Record; MAX_HELD],
    count: usize,
}

impl<S: Readable> Held<S> {
    // The records that are in use.
    fn held(&self) -> &[Record]
        ensures list { result.now ≡ holding self.now }
        ensures len { length result.now ≡ min self.now.count 32 }
    {
        &self.records[0..self.count.min(MAX_HELD)]
    }

    // The index of the first mark that is held for a block.
    fn position(&self, block: usize) -> Option<usize>
        ensures { MatchOption result (Absent block (holding self.now)) (λ i. HeldAt block (holding self.now) i) }
    {
        self.held().iter().position(|held| held.block == block)
    }

    // The mark that is held for a block.
    #[tactic(auto, using(crate::specs::Overlays::over_length, crate::proofs::Overlays::over_held, crate::proofs::Overlays::shows_below))]
    fn held_mark(&self, block: usize) -> Option<u32>
        ensures { Shows (holding self.now) (S.marks self.now.below) block result }
    {
        let index = self.position(block)?;
        Some(self.held()[index].mark)
    }

    // The index of the record that the next mark is held in, unless all are in use.
    fn vacancy(&self) -> Option<usize>
        ensures { MatchOption result (32 ≤ length (holding self.now)) (λ i. (i < 32) × (i ≡ length (holding self.now))) }
    {
        let count = self.held().len();
        if count < MAX_HELD { Some(count) } else { None }
    }
}

impl<S: Writable> Held<S> {
    pub fn new(below: S) -> Held<S>
        ensures below { result.below ≡ below }
        ensures none { holding result ≡ [] }
        ensures list { overlaid S.marks result ≡ S.marks below }
    {
        Held {
            below,
            records: [Record::default(); MAX_HELD],
            count: 0,
        }
    }

    // Writes all held marks below. The list stays, and is now the list below.
    pub fn flush(&mut self)
        ensures none { holding self.new ≡ [] }
        ensures list { overlaid S.marks self.new ≡ overlaid S.marks self.old }
        ensures below { S.marks self.new.below ≡ overlaid S.marks self.old }
    {
        while let Some(held) = self.pop() {
            self.put_below(held);
        }
    }

    // Takes the last held mark away.
    fn pop(&mut self) -> Option<Record>
        ensures { Pops S.marks self.old self.new result }
    {
        let last = self.held().len().checked_sub(1)?;
        self.count = last;
        Some(self.records[last])
    }

    // Writes a mark below. A held block is one of the sheet, so the write is granted.
    #[tactic(auto, using(crate::proofs::Written::written))]
    fn put_below(&mut self, held: Record)
        ensures held { holding self.new ≡ holding self.old }
        ensures below { S.marks self.new.below ≡ slice_set (S.marks self.old.below) held.block held.mark }
    {
        let _ = self.below.write(held.block, held.mark);
    }

    // Replaces the mark that is held for a block, which is at an index.
    fn replace(&mut self, index: usize, written: Record)
        requires { HeldAt written.block (holding self.old) index }
        ensures list { overlaid S.marks self.new ≡ slice_set (overlaid S.marks self.old) written.block written.mark }
        ensures put { HeldPuts S.marks self.old written.block written.mark self.new }
    {
        self.records[index] = written;
    }

    // Holds a mark for a block that none is held for; where no more can be held, it goes below.
    fn add(&mut self, written: Record) -> Result<(), Denial>
        requires absent { Absent written.block (holding self.old) }
        requires inside { written.block < length (overlaid S.marks self.old) }
        ensures wrote { Writes (overlaid S.marks) self.old written.block written.mark self.new result }
        ensures put { OnOk result (HeldPuts S.marks self.old written.block written.mark self.new) }
    {
        match self.vacancy() {
            Some(index) => {
                self.records[index] = written;
                self.count = index + 1;
                Ok(())
            }
            None => self.below.write(written.block, written.mark),
        }
    }
}

impl<S: Readable> Readable for Held<S> {
    ghost marks = { overlaid S.marks };

    ghost short = { λ h. over_short (holding h) (S.marks h.below) (S.short h.below) };

    #[tactic(auto, using(crate::specs::Overlays::over_length))]
    fn len(&self) -> usize {
        self.below.len()
    }

    fn read(&self, block: usize) -> Result<u32, Denial> {
        check_block(block, self.len())?;
        match self.held_mark(block) {
            Some(mark) => Ok(mark),
            None => self.below.read(block),
        }
    }
}

impl<S: Writable> Writable for Held<S> {
    fn write(&mut self, block: usize, mark: u32) -> Result<(), Denial>
        ensures wrote { Writes (overlaid S.marks) self.old block mark self.new result }
        ensures put { OnOk result (HeldPuts S.marks self.old block mark self.new) }
    {
        check_block(block, self.len())?;
        match self.position(block) {
            Some(index) => {
                self.replace(index, Record { block, mark });
                Ok(())
            }
            None => self.add(Record { block, mark }),
        }
    }
}
