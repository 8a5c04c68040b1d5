// The shortest generator of a stretch.
ghost use Rattle.denial.specs.Questions.{Asks};
ghost use Rattle.generator.specs.Finds.{Finds, codes_question};

use crate::berlekamp_massey::berlekamp_massey;
use crate::polynomials::MAX_STRETCH;
use denial::Denial;
use field::Field;

// The memory for a generator has so many numbers or more: one of at most half the length of a stretch has no more codes.
pub const MIN_MEMORY: usize = MAX_STRETCH / 2 + 1;

// Whether every number is a code.
fn check_codes<F: Field>(numbers: &[u32]) -> Result<(), Denial>
    ensures { Asks (codes_question F.arithmetic numbers.now) result }
{
    match numbers.iter().position(|number| !F::is_code(*number)) {
        Some(index) => Err(Denial::NoCode { index }),
        None => Ok(()),
    }
}

// A generator of a stretch is a list of codes, the last of them 1, whose products with as many numbers in a row of the stretch add up to 0,
// wherever in the stretch these stand. Its length is one less than its number of codes.
//
// Writes the shortest generator of the stretch to the front of the memory, which the caller lends since nothing is allocated, and answers
// its length. What stands behind it in the memory stays. The call is denied where the stretch has more than 32 numbers or a number that is
// no code, where the memory has fewer than 17 numbers, and where the generator is longer than half of the stretch; it then alters nothing.
pub fn shortest_generator<F: Field>(stretch: &[u32], memory: &mut [u32]) -> Result<usize, Denial>
    ensures { Finds F.arithmetic stretch.now memory.old memory.new result }
{
    if stretch.len() > MAX_STRETCH {
        return Err(Denial::StretchTooLong);
    }
    check_codes::<F>(stretch)?;
    if memory.len() < MIN_MEMORY {
        return Err(Denial::NoRoom);
    }
    let generator = berlekamp_massey::<F>(stretch);
    let length = generator.len() - 1;
    if 2 * length > stretch.len() {
        return Err(Denial::GeneratorTooLong);
    }
    memory[..generator.len()].copy_from_slice(&generator);
    Ok(length)
}
