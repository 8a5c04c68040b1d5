// Shortest generators by a trial of all lists of codes, from the definition alone.
ghost use Rattle.std.specs.Prelude.{◌≡◌, ℕ, ◌+◌, ◌-◌, ◌/◌, ◌%◌, ◌^◌, ◌<◌, ◌≤◌, ◌↔◌, List, length, drop, slice_index, IsTrue, IfSome, IfNone};
ghost use Rattle.arrayvec.specs.ArrayVec.{array_vec_len};
ghost use Rattle.generator.specs.Generators.{Generates, Only, Shortest, dot};
ghost use Rattle.trial.specs.Five.{five};

use crate::five_field::Five;
use arrayvec::ArrayVec;
use field::{FermatPrime, Field};
use generator::dot_product;

// No stretch of the trial is longer.
pub(crate) const LONGEST: usize = 7;

// A generator of that length has so many codes.
const MOST_CODES: usize = LONGEST + 1;

pub(crate) type Codes = ArrayVec<u32, MOST_CODES>;

// All lists of so many codes.
#[derive(Clone, Copy)]
pub(crate) struct Lists {
    pub length: usize,
    ghost short: { length ≤ 7 },
}

impl Lists {
    // How many they are.
    pub(crate) fn count(self) -> u32
        ensures { result ≡ 5 ^ self.length }
    {
        // There is no `From<usize>` for `u32`.
        Five::SIZE.pow(self.length as u32)
    }

    // The list of the digits of a number, the lowest first: the numbers below the count give all lists.
    pub(crate) fn list(self, number: u32) -> Codes
        ensures size { array_vec_len result ≡ self.length }
        ensures each { (i : ℕ) → i < self.length → slice_index result.items i ≡ number / 5 ^ i % 5 }
    {
        let mut codes = Codes::new();
        let mut left = number;
        for _place in 0..self.length {
            codes.push(left % Five::SIZE);
            left /= Five::SIZE;
        }
        codes
    }

    // The last generator of the stretch that is one of these lists with a 1 behind it.
    pub(crate) fn generator_of(self, stretch: &[u32]) -> Option<Found>
        ensures none { IfNone result ((g : List ℕ) → ¬ Generates five self.length g stretch.now) }
        ensures generates { IfSome result (λ found. Generates five self.length found.generator.items stretch.now) }
        ensures only { IfSome result (λ found. IsTrue found.only ↔ Only five self.length found.generator.items stretch.now) }
    {
        let mut found = None;
        for number in 0..self.count() {
            let mut generator = self.list(number);
            generator.push(1);
            if generates::<Five>(&generator, stretch) {
                found = Some(Found {
                    generator,
                    only: found.is_none(),
                });
            }
        }
        found
    }
}

// A generator of a stretch, and whether it is the only one of its length.
#[derive(Drop)]
pub(crate) struct Found {
    pub generator: Codes,
    pub only: bool,
}

// Whether the products of the generator with as many numbers in a row of the stretch add up to 0, wherever these stand.
fn generates<F: Field>(generator: &[u32], stretch: &[u32]) -> bool
    requires { 0 < length generator.now }
    ensures { IsTrue result ↔ ((i : ℕ) → i + length generator.now ≤ length stretch.now
        → dot F.arithmetic generator.now (drop i stretch.now) ≡ 0) }
{
    stretch
        .windows(generator.len())
        .all(|run| dot_product::<F>(generator, run) == 0)
}

// A shortest generator of a stretch.
pub(crate) fn shortest(stretch: &[u32]) -> Option<Found>
    ensures none { IfNone result (7 < length stretch.now) }
    ensures shortest { IfSome result (λ found. Shortest five (array_vec_len found.generator - 1) found.generator.items stretch.now) }
    ensures only { IfSome result (λ found. IsTrue found.only ↔ Only five (array_vec_len found.generator - 1) found.generator.items stretch.now) }
{
    // A plain loop: the closure of a `find_map` would have to ask that the length is at most 7.
    for length in 0..=LONGEST {
        let found = Lists { length }.generator_of(stretch);
        if found.is_some() {
            return found;
        }
    }
    None
}
