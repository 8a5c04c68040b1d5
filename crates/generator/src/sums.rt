// Sums of sheets.
ghost use Rattle.std.specs.Prelude.{◌≡◌, slice_index};
ghost use Rattle.generator.specs.Sums.{Sums, sum_at_place};

use denial::Denial;
use field::Field;
use sheet::Readable;

// Sums are kept at the places below this.
pub const MAX_PLACES: usize = 544;

// The sum of a sheet at a place: the total over all blocks of the mark times base^(place * block).
pub fn sum_at<F: Field, S: Readable>(sheet: &S, place: usize) -> Result<u32, Denial>
    ensures { Sums F.arithmetic (S.marks sheet.now) place result }
{
    if place >= MAX_PLACES {
        return Err(Denial::PlaceOutside { place });
    }
    Ok(total::<F, S>(sheet, place))
}

// The sum is the value at base^place of the polynomial whose coefficients are the marks, here by Horner's rule from the last block down.
fn total<F: Field, S: Readable>(sheet: &S, place: usize) -> u32
    ensures { result ≡ sum_at_place F.arithmetic (S.marks sheet.now) place }
{
    let node = F::base_pow(place);
    let mut sum = 0;
    // A plain loop: a sheet has no iterator, and no proof was found of a fold over a range in reverse.
    for block in (0..sheet.len()).rev() {
        sum = F::add(mark_or_zero(sheet, block), F::mul(node, sum));
    }
    sum
}

// The mark of a block, and 0 where there is no such block.
fn mark_or_zero<S: Readable>(sheet: &S, block: usize) -> u32
    ensures { result ≡ slice_index (S.marks sheet.now) block }
{
    sheet.read(block).unwrap_or(0)
}
