// The field of the remainders by 5.
ghost use Rattle.trial.specs.Five.{five_squares};
ghost use Rattle.trial.specs.FiveLaws.{five_field};

use field::FermatPrime;

const SQUARES: [u32; 2] = [2, 4];

#[derive(Clone, Copy)]
pub(crate) struct Five;

impl FermatPrime for Five {
    ghost SIZE = { 5 };

    const SIZE: u32 = 5;

    ghost BASE = { 2 };

    const BASE: u32 = 2;

    ghost KIND = { 255 };

    const KIND: u8 = 255;

    ghost WIDTH = { 1 };

    const WIDTH: usize = 1;

    ghost squares = { five_squares };

    fn squares() -> &'static [u32] {
        &SQUARES
    }

    ghost lawful = { five_field };
}
