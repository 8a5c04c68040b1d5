// Finite fields on codes.
//
// A field of q elements has the numbers 0 to q - 1 as its codes. Each call takes any numbers and gives a code: a number of q or more counts
// as its remainder by q.
#![tactic(auto)]

ghost use Rattle.std.specs.Prelude.{◌≡◌, ◌-◌, ◌<◌, ◌↔◌, IsTrue};
ghost use Rattle.field.specs.Field.{Arithmetic, Laws, power};

mod binary_field;
mod prime_field;
mod remainders;
#[cfg(test)]
mod tests;

pub use binary_field::Binary;
pub use prime_field::Prime;
pub use remainders::FermatPrime;

// The exponent e for which a^e is the inverse of each code a but 0, in a field of `size` codes.
fn inverse_exponent(size: u32) -> usize
    requires { 1 < size }
    ensures { result ≡ size - 2 }
{
    // There is no `From<u32>` for `usize`.
    size as usize - 2
}

pub trait Field {
    // What the codes mean: their sums and products, the base, and the field's numbers.
    ghost arithmetic: { Arithmetic };

    // The number q of codes.
    fn size() -> u32
        ensures { result ≡ arithmetic.size };

    // A code whose powers with an exponent below the order are all different.
    fn base() -> u32
        ensures { result ≡ arithmetic.base };

    // The number of different powers of the base.
    fn order() -> usize
        ensures { result ≡ arithmetic.order };

    // The number that names the field in messages. No enum lists them, since a program may bring a field of its own.
    fn kind() -> u8
        ensures { result ≡ arithmetic.kind };

    // The number of bytes of a value in messages.
    fn width() -> usize
        ensures { result ≡ arithmetic.width };

    // Whether a number is a code.
    fn is_code(a: u32) -> bool
        ensures { IsTrue result ↔ (a < arithmetic.size) }
    {
        a < Self::size()
    }

    fn add(a: u32, b: u32) -> u32
        ensures { result ≡ arithmetic.plus a b };

    fn neg(a: u32) -> u32
        ensures { result ≡ arithmetic.negate a };

    fn mul(a: u32, b: u32) -> u32
        ensures { result ≡ arithmetic.times a b };

    fn sub(a: u32, b: u32) -> u32
        ensures { result ≡ arithmetic.plus a (arithmetic.negate b) }
    {
        Self::add(a, Self::neg(b))
    }

    // The power a^exponent, by repeated squares; a^0 is 1.
    fn pow(a: u32, exponent: usize) -> u32
        ensures { result ≡ power arithmetic a exponent }
    {
        let mut power = 1;
        let mut square = a;
        let mut left = exponent;
        while left > 0 {
            if left % 2 == 1 {
                power = Self::mul(square, power);
            }
            square = Self::mul(square, square);
            left /= 2;
        }
        power
    }

    // The power of the base.
    fn base_pow(exponent: usize) -> u32
        ensures { result ≡ power arithmetic arithmetic.base exponent }
    {
        Self::pow(Self::base(), exponent)
    }

    // The inverse; 0 for 0.
    fn inv(a: u32) -> u32
        ensures { result ≡ arithmetic.invert a }
    {
        let size = Self::size();
        if a % size == 0 {
            return 0;
        }
        Self::pow(a, inverse_exponent(size))
    }

    // What each field shows, and all that code over a field may use.
    ghost lawful: { Laws arithmetic };
}
