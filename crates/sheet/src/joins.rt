// A joined sheet: two sheets end to end.
ghost use Rattle.std.specs.Prelude.{◌≡◌, ◌≤◌, ◌++◌, OnOk};
ghost use Rattle.sheet.specs.Joins.{JoinedPuts, joined, joined_marks};
ghost use Rattle.sheet.specs.Marks.{Writes, cut_short};
ghost use Rattle.sheet.specs.Parts.{Finds, Locates};

use crate::{Readable, Writable, block_count, check_block};
use denial::Denial;

// The part of a joined sheet that has a block, with the number of the block there.
#[derive(Clone, Copy)]
enum Part {
    First(usize),
    Second(usize),
}

// Where a block lies in two sheets end to end that have so many blocks.
fn locate(block: usize, first: usize, second: usize) -> Result<Part, Denial>
    requires first_fits { first ≤ 65536 }
    requires second_fits { second ≤ 65536 }
    ensures { Locates first second block result }
{
    check_block(block, block_count(first + second))?;
    if block < first {
        Ok(Part::First(block))
    } else {
        Ok(Part::Second(block - first))
    }
}

#[derive(Drop)]
pub struct Joined<L, R> {
    first: L,
    second: R,
}

impl<L: Readable, R: Readable> Joined<L, R> {
    pub fn new(first: L, second: R) -> Joined<L, R>
        ensures first { result.first ≡ first }
        ensures second { result.second ≡ second }
        ensures list { joined_marks L.marks R.marks result ≡ joined (L.marks first) (R.marks second) }
    {
        Joined { first, second }
    }

    // The part that has a block, with the number of the block there; a read or a write of the part answers for the block.
    #[tactic(auto, using(crate::proofs::Ends::found))]
    fn part(&self, block: usize) -> Result<Part, Denial>
        ensures { Finds L.marks R.marks self.now block result }
    {
        locate(block, self.first.len(), self.second.len())
    }
}

impl<L: Readable, R: Readable> Readable for Joined<L, R> {
    ghost marks = { joined_marks L.marks R.marks };

    ghost short = { λ s. cut_short (L.marks s.first ++ R.marks s.second) };

    #[tactic(auto, using(crate::proofs::Ends::joined_length))]
    fn len(&self) -> usize {
        block_count(self.first.len() + self.second.len())
    }

    fn read(&self, block: usize) -> Result<u32, Denial> {
        match self.part(block)? {
            Part::First(at) => self.first.read(at),
            Part::Second(at) => self.second.read(at),
        }
    }
}

impl<L: Writable, R: Writable> Writable for Joined<L, R> {
    fn write(&mut self, block: usize, mark: u32) -> Result<(), Denial>
        ensures wrote { Writes (joined_marks L.marks R.marks) self.old block mark self.new result }
        ensures put { OnOk result (JoinedPuts L.marks R.marks self.old block mark self.new) }
    {
        match self.part(block)? {
            Part::First(at) => self.first.write(at, mark),
            Part::Second(at) => self.second.write(at, mark),
        }
    }
}
