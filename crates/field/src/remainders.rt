// Fields of the remainders by a prime.
ghost use Rattle.std.specs.Prelude.{◌≡◌, ℕ, List};
ghost use Rattle.field.specs.Prime.{RemainderField, remainders};

use crate::Field;

// A prime q = 2^k + 1, and the numbers of the field of the remainders by q. The base has the order 2^k.
pub trait FermatPrime {
    // The prime.
    ghost SIZE: { ℕ };

    const SIZE: u32;

    // A code whose powers are all codes but 0.
    ghost BASE: { ℕ };

    const BASE: u32;

    // The number that names the field in messages.
    ghost KIND: { ℕ };

    const KIND: u8;

    // The number of bytes of a value in messages.
    ghost WIDTH: { ℕ };

    const WIDTH: usize;

    // The k repeated squares of the base: base, base^2, base^4 and on.
    ghost squares: { List ℕ };

    fn squares() -> &'static [u32]
        ensures { result.now ≡ squares };

    // What each prime shows.
    ghost lawful: { RemainderField SIZE BASE KIND WIDTH squares };
}

impl<P: FermatPrime> Field for P {
    ghost arithmetic = { remainders P.SIZE P.BASE P.KIND P.WIDTH };

    fn size() -> u32 {
        P::SIZE
    }

    fn base() -> u32 {
        P::BASE
    }

    fn order() -> usize {
        // There is no `From<u32>` for `usize`.
        P::SIZE as usize - 1
    }

    fn kind() -> u8 {
        P::KIND
    }

    fn width() -> usize {
        P::WIDTH
    }

    // The remainder fits 32 bits, here and in `mul`: the casts are proved to lose nothing.
    fn add(a: u32, b: u32) -> u32 {
        ((u64::from(a) + u64::from(b)) % u64::from(P::SIZE)) as u32
    }

    fn neg(a: u32) -> u32 {
        (P::SIZE - a % P::SIZE) % P::SIZE
    }

    fn mul(a: u32, b: u32) -> u32 {
        (u64::from(a) * u64::from(b) % u64::from(P::SIZE)) as u32
    }

    // The product of the repeated squares that the bits of the exponent name.
    fn base_pow(exponent: usize) -> u32 {
        let mut power = 1;
        let mut left = exponent % Self::order();
        for square in P::squares() {
            if left % 2 == 1 {
                power = Self::mul(*square, power);
            }
            left /= 2;
        }
        power
    }

    ghost lawful = { P.lawful.laws };
}
