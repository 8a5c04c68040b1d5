// A table: a sheet over the caller's 32-bit numbers.
ghost use Rattle.std.specs.Prelude.{◌≡◌, OnOk, slice_set};
ghost use Rattle.sheet.specs.Marks.{Writes, cut, cut_short};

use crate::sources::{Source, blocks, mark};
use crate::{Readable, Writable, check_block};
use denial::Denial;

#[derive(Drop)]
pub struct Table<'a> {
    numbers: &'a mut [u32],
}

impl<'a> Table<'a> {
    pub fn new(numbers: &'a mut [u32]) -> Table<'a>
        ensures same { result.numbers.now ≡ numbers.old }
        ensures list { cut result.numbers.now ≡ cut numbers.old }
        ensures lender { result.numbers.ghost_name ≡ numbers.entry.ghost_name }
    {
        Table { numbers }
    }
}

impl<'a> Source for Table<'a> {
    ghost numbers = { λ t. t.numbers.now };

    fn count(&self) -> usize {
        self.numbers.len()
    }

    fn number(&self, index: usize) -> Option<u32> {
        self.numbers.get(index).copied()
    }
}

// A trait object needs an `impl` of the sheet's own, and not one for all sources.
impl<'a> Readable for Table<'a> {
    ghost marks = { λ t. cut t.numbers.now };

    ghost short = { λ t. cut_short t.numbers.now };

    fn len(&self) -> usize {
        blocks(self)
    }

    fn read(&self, block: usize) -> Result<u32, Denial> {
        mark(self, block)
    }
}

impl<'a> Writable for Table<'a> {
    #[tactic(auto, using(crate::proofs::Cuts::cut_set))]
    fn write(&mut self, block: usize, mark: u32) -> Result<(), Denial>
        ensures wrote { Writes (λ t. cut t.numbers.now) self.old block mark self.new result }
        ensures put { OnOk result (self.new.numbers.now ≡ slice_set self.old.numbers.now block mark) }
        ensures lender { self.new.numbers.ghost_name ≡ self.old.numbers.ghost_name }
    {
        check_block(block, self.len())?;
        self.numbers[block] = mark;
        Ok(())
    }
}
