// Sheets: lists of marks, one 32-bit number for each block of a drawing set.
#![tactic(auto)]

ghost use Rattle.std.specs.Prelude.{◌≡◌, ℕ, ◌≤◌, min, List, length};
ghost use Rattle.sheet.specs.Marks.{Checks, Reads, Writes};

use denial::Denial;

mod holds;
mod joins;
mod records;
mod sources;
mod strips;
mod tables;
#[cfg(test)]
mod tests;

pub use holds::{Held, MAX_HELD};
pub use joins::Joined;
pub use sources::Source;
pub use strips::Strip;
pub use tables::Table;

// No sheet has more blocks: what a longer source holds behind them is not part of its sheet.
pub const MAX_BLOCKS: usize = 65_536;

// The number of blocks of a sheet that is cut from so many numbers or blocks.
fn block_count(numbers: usize) -> usize
    ensures { result ≡ min numbers 65536 }
{
    numbers.min(MAX_BLOCKS)
}

// Whether a sheet of so many blocks has the block.
fn check_block(block: usize, blocks: usize) -> Result<(), Denial>
    ensures { Checks blocks block result }
{
    if block < blocks {
        Ok(())
    } else {
        Err(Denial::BlockOutside { block })
    }
}

// A sheet whose marks can be read. Reading alters nothing.
pub trait Readable {
    // The marks, from block 0 on.
    ghost marks: { Self → List ℕ };

    // No sheet has more than `MAX_BLOCKS` marks. This stands above the functions, so that clauses may name it too.
    ghost short: { (s : Self) → length (marks s) ≤ 65536 };

    // The number of blocks.
    fn len(&self) -> usize
        ensures { result ≡ length (marks self.now) };

    // The mark of a block.
    fn read(&self, block: usize) -> Result<u32, Denial>
        ensures { Reads (marks self.now) block result };
}

// A readable sheet whose marks can be written too.
pub trait Writable: Readable {
    // Puts a mark at a block, and alters no other block and not the number of blocks. A denied write alters nothing. The two numbers are
    // parameters of their own, as a caller has them apart.
    fn write(&mut self, block: usize, mark: u32) -> Result<(), Denial>
        ensures { Writes Self.marks self.old block mark self.new result };
}
