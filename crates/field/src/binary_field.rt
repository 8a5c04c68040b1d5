// Fields of polynomials with coefficients 0 and 1, and the one of kind 2: 256 codes.
ghost use Rattle.std.specs.Prelude.{◌≡◌, ◌/◌, ◌^◌, ◌<◌};
ghost use Rattle.field.specs.Binary.{binary, reduced_product};
ghost use Rattle.field.specs.BinaryLaws.{binary_laws};

use crate::Field;

// The product of two polynomials of degree below `bits`, reduced by a modulus of that degree.
fn product(bits: u32, modulus: u32, a: u32, b: u32) -> u32
    requires positive { 0 < bits }
    requires fits { bits < 32 }
    requires degree { modulus / 2 ^ bits ≡ 1 }
    requires reduced { a < 2 ^ bits }
    ensures { result ≡ reduced_product bits modulus a b }
{
    let mut sum = 0;
    let mut shifted = a;
    let mut left = b;
    for _i in 0..bits {
        sum ^= left % 2 * shifted;
        shifted = (shifted * 2) ^ ((shifted >> (bits - 1)) % 2 * modulus);
        left /= 2;
    }
    sum
}

const BITS: u32 = 8;

// x^8 + x^4 + x^3 + x^2 + 1
const MODULUS: u32 = 0x11D;

const SIZE: u32 = 256;

#[derive(Clone, Copy)]
pub struct Binary;

impl Field for Binary {
    ghost arithmetic = { binary };

    fn size() -> u32 {
        SIZE
    }

    fn base() -> u32 {
        2
    }

    fn order() -> usize {
        255
    }

    fn kind() -> u8 {
        2
    }

    fn width() -> usize {
        1
    }

    fn add(a: u32, b: u32) -> u32 {
        (a % SIZE) ^ (b % SIZE)
    }

    fn neg(a: u32) -> u32 {
        a % SIZE
    }

    fn mul(a: u32, b: u32) -> u32 {
        product(BITS, MODULUS, a % SIZE, b % SIZE)
    }

    ghost lawful = { binary_laws };
}
