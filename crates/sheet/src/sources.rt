// What sheets are cut from.
ghost use Rattle.std.specs.Prelude.{◌≡◌, ℕ, List, length, slice_get};
ghost use Rattle.sheet.specs.Marks.{Reads, cut};

use crate::{block_count, check_block};
use denial::Denial;

// The numbers that a sheet is cut from: its marks are the first 65,536 of them, or all of fewer.
pub trait Source {
    ghost numbers: { Self → List ℕ };

    // How many numbers there are.
    fn count(&self) -> usize
        ensures { result ≡ length (numbers self.now) };

    // The number at an index, if there is one.
    fn number(&self, index: usize) -> Option<u32>
        ensures { result ≡ slice_get (numbers self.now) index };
}

// The number of blocks of the sheet that is cut from a source.
#[tactic(auto, using(crate::proofs::Cuts::cut_length))]
pub(crate) fn blocks<T: Source>(source: &T) -> usize
    ensures { result ≡ length (cut (T.numbers source.now)) }
{
    block_count(source.count())
}

// The mark of a block of that sheet.
#[tactic(auto, using(crate::proofs::Cuts::cut_number))]
pub(crate) fn mark<T: Source>(source: &T, block: usize) -> Result<u32, Denial>
    ensures { Reads (cut (T.numbers source.now)) block result }
{
    check_block(block, blocks(source))?;
    Ok(source.number(block).unwrap())
}
