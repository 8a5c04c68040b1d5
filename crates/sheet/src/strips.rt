// A strip: a sheet over the caller's bytes, one byte a mark.
ghost use Rattle.std.specs.Prelude.{◌≡◌};
ghost use Rattle.sheet.specs.Marks.{cut, cut_short};

use crate::Readable;
use crate::sources::{Source, blocks, mark};
use denial::Denial;

#[derive(Drop)]
pub struct Strip<'a> {
    bytes: &'a [u8],
}

impl<'a> Strip<'a> {
    pub fn new(bytes: &'a [u8]) -> Strip<'a>
        ensures { result.bytes.now ≡ bytes.now }
    {
        Strip { bytes }
    }
}

impl<'a> Source for Strip<'a> {
    ghost numbers = { λ s. s.bytes.now };

    fn count(&self) -> usize {
        self.bytes.len()
    }

    fn number(&self, index: usize) -> Option<u32> {
        self.bytes.get(index).copied().map(u32::from)
    }
}

// A trait object needs an `impl` of the sheet's own, and not one for all sources.
impl<'a> Readable for Strip<'a> {
    ghost marks = { λ s. cut s.bytes.now };

    ghost short = { λ s. cut_short s.bytes.now };

    fn len(&self) -> usize {
        blocks(self)
    }

    fn read(&self, block: usize) -> Result<u32, Denial> {
        mark(self, block)
    }
}
