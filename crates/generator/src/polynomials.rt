// Polynomials of degree at most 32, by their coefficients, the lowest first.
ghost use Rattle.std.specs.Prelude.{◌≡◌, ◌+◌, ◌≤◌, [], ◌∷◌, length};
ghost use Rattle.generator.specs.Generators.{dot};
ghost use Rattle.generator.specs.Steps.{Combined, shifted_at};

use arrayvec::ArrayVec;
use field::Field;

// A generator is sought for stretches of at most so many numbers.
pub const MAX_STRETCH: usize = 32;

// A polynomial has the coefficients of z^0 to z^32 at most.
const COEFFICIENTS: usize = MAX_STRETCH + 1;

pub(crate) type Polynomial = ArrayVec<u32, COEFFICIENTS>;

// The constant polynomial 1.
pub(crate) fn one() -> Polynomial
    ensures { result.items ≡ 1 ∷ [] }
{
    let mut one = Polynomial::new();
    one.push(1);
    one
}

// A total and one product more.
fn add_product<F: Field>(total: u32, x: u32, y: u32) -> u32
    ensures { result ≡ F.arithmetic.plus total (F.arithmetic.times x y) }
{
    F::add(total, F::mul(x, y))
}

// The total of the products of two lists, place by place, as far as both go.
pub fn dot_product<F: Field>(first: &[u32], second: &[u32]) -> u32
    ensures { result ≡ dot F.arithmetic first.now second.now }
{
    first
        .iter()
        .zip(second)
        .fold(0, |total, (x, y)| add_product::<F>(total, *x, *y))
}

// z^shift times a polynomial.
#[derive(Clone, Copy)]
pub(crate) struct Shifted<'a> {
    pub polynomial: &'a [u32],
    pub shift: usize,
}

impl<'a> Shifted<'a> {
    // The coefficient at an index, which is 0 past the last one.
    fn coefficient(&self, index: usize) -> u32
        ensures { result ≡ shifted_at self.now.shift self.now.polynomial.now index }
    {
        if index < self.shift {
            0
        } else {
            self.polynomial
                .get(index - self.shift)
                .copied()
                .unwrap_or(0)
        }
    }
}

// The coefficients of first + factor * second, as many as the first has. They fit a polynomial.
pub(crate) fn combine<F: Field>(
    first: &Shifted<'_>,
    factor: u32,
    second: &Shifted<'_>,
) -> Polynomial
    requires { first.now.shift + length first.now.polynomial.now ≤ 33 }
    ensures { Combined F.arithmetic first.now.shift first.now.polynomial.now factor second.now.shift second.now.polynomial.now result.items }
{
    let mut sum = Polynomial::new();
    // A plain loop: the index is the exponent of z on both sides, and to collect into an `ArrayVec` answers a `Result`.
    for i in 0..first.shift + first.polynomial.len() {
        sum.push(F::add(first.coefficient(i), F::mul(factor, second.coefficient(i))));
    }
    sum
}
