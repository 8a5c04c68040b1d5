// The field of kind 1: remainders by the prime 65,537.
ghost use Rattle.field.specs.Prime.{squares};
ghost use Rattle.field.specs.PrimeLaws.{prime_field};

use crate::FermatPrime;

// The repeated squares of the base: 3, 3^2, 3^4 and on to 3^32768.
const SQUARES: [u32; 16] = [
    3, 9, 81, 6561, 54449, 61869, 19139, 15028, 282, 13987, 8224, 65529, 64, 4096, 65281, 65536,
];

#[derive(Clone, Copy)]
pub struct Prime;

impl FermatPrime for Prime {
    ghost SIZE = { 65537 };

    const SIZE: u32 = 65_537;

    ghost BASE = { 3 };

    const BASE: u32 = 3;

    ghost KIND = { 1 };

    const KIND: u8 = 1;

    ghost WIDTH = { 3 };

    const WIDTH: usize = 3;

    ghost squares = { squares };

    fn squares() -> &'static [u32] {
        &SQUARES
    }

    ghost lawful = { prime_field };
}
