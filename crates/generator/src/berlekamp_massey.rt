// The algorithm of Berlekamp and Massey: it takes the numbers of a stretch in, one by one. Where the generator so far fails at a number, a
// multiple of an earlier generator, which failed too, makes up for it.
ghost use Rattle.std.specs.Prelude.{◌≡◌, ◌+◌, ◌-◌, ◌*◌, ◌<◌, ◌≤◌, max, [], ◌∷◌, length, drop};
ghost use Rattle.arrayvec.specs.ArrayVec.{array_vec_len};
ghost use Rattle.generator.specs.Finds.{Short, Long};

use crate::polynomials::{Polynomial, Shifted, combine, dot_product, one};
use field::Field;
use std::mem;

// What is known after the first numbers of a stretch.
#[derive(Drop)]
struct State {
    // A shortest generator of these numbers.
    generator: Polynomial,
    // An earlier generator, and the inverse of its discrepancy at the number that it failed at; 1 and 1 before the first failure.
    helper: Polynomial,
    inverse: u32,

    ghost not_empty: { 0 < array_vec_len generator },
}

impl State {
    ghost use Rattle.generator.specs.Generators.{dot};
    ghost use Rattle.generator.specs.Steps.{Steps, state_length};

    // Before the first number: the constant polynomial 1 generates the empty stretch.
    fn new() -> State
        ensures generator { result.generator.items ≡ 1 ∷ [] }
        ensures helper { result.helper.items ≡ 1 ∷ [] }
        ensures inverse { result.inverse ≡ 1 }
    {
        State {
            generator: one(),
            helper: one(),
            inverse: 1,
        }
    }

    // The length of the generator.
    fn length(&self) -> usize
        ensures { result ≡ state_length self.now }
    {
        self.generator.len() - 1
    }

    // What the generator gives at the number at k, with those before it: 0 where it does not fail.
    fn discrepancy<F: Field>(&self, stretch: &[u32], k: usize) -> u32
        requires enough_before { state_length self.now ≤ k }
        requires inside { k < length stretch.now }
        ensures { result ≡ dot F.arithmetic self.now.generator.items (drop (k - state_length self.now) stretch.now) }
    {
        dot_product::<F>(&self.generator, &stretch[k - self.length()..])
    }

    // Takes in the number at k, which the generator fails at by a discrepancy.
    fn step<F: Field>(&mut self, k: usize, discrepancy: u32)
        requires enough_before { state_length self.old ≤ k }
        requires within_limit { k < 32 }
        ensures { Steps F.arithmetic k discrepancy self.old self.new }
    {
        let length = self.length();
        let next_length = next_length(length, k + 1);
        let factor = F::neg(F::mul(discrepancy, self.inverse));
        let generator = Shifted {
            polynomial: &self.generator,
            shift: next_length - length,
        };
        let helper = Shifted {
            polynomial: &self.helper,
            shift: next_length - (k + 1 - length),
        };
        let next = combine::<F>(&generator, factor, &helper);
        let failed = mem::replace(&mut self.generator, next);
        if next_length > length {
            self.helper = failed;
            self.inverse = F::inv(discrepancy);
        }
    }
}

// The length of the next generator, where one of this length fails at the last of so many numbers: no generator of all of these is shorter
// than their count less the length, nor than the one that fails.
fn next_length(length: usize, count: usize) -> usize
    ensures { result ≡ max length (count - length) }
{
    length.max(count.saturating_sub(length))
}

// A shortest generator of a stretch.
pub(crate) fn berlekamp_massey<F: Field>(stretch: &[u32]) -> Polynomial
    requires { length stretch.now ≤ 32 }
    ensures short { let L = array_vec_len result - 1 in 2 * L ≤ length stretch.now → Short F.arithmetic stretch.now L result.items }
    ensures long { let L = array_vec_len result - 1 in length stretch.now < 2 * L → Long F.arithmetic stretch.now L result.items }
{
    let mut state = State::new();
    // A plain loop: what the generator gives at a number takes those before it too, so its place k is needed.
    for k in 0..stretch.len() {
        let discrepancy = state.discrepancy::<F>(stretch, k);
        if discrepancy != 0 {
            state.step::<F>(k, discrepancy);
        }
    }
    state.generator
}
