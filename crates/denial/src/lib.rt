// Denials: what a call answers where it grants nothing.
#![tactic(auto)]

ghost use Rattle.std.specs.Prelude.{◌≡◌, Some};
ghost use Rattle.denial.specs.Refusals.{number_of_layer, refusal, text};

use std::error::Error;
use std::fmt;

// What asked the question: the message, the share with its sums, or the sheet.
#[derive(Clone, Copy, PartialEq, Eq, Debug)]
pub enum Layer {
    Message,
    Share,
    Sheet,
}

impl From<Layer> for u8 {
    ghost from_gives = { λ layer number. number ≡ number_of_layer layer };

    fn from(layer: Layer) -> u8 {
        match layer {
            Layer::Message => 1,
            Layer::Share => 2,
            Layer::Sheet => 3,
        }
    }
}

#[derive(Clone, Copy, PartialEq, Eq, Debug)]
pub enum Denial {
    // The sheet has no such block.
    BlockOutside { block: usize },
    // No sum is kept at such a place.
    PlaceOutside { place: usize },
    // A number of a stretch is no code of the field.
    NoCode { index: usize },
    // The memory for the answer is too short.
    NoRoom,
    // The stretch has more numbers than a generator is sought for.
    StretchTooLong,
    // The shortest generator is longer than half of its stretch.
    GeneratorTooLong,
}

impl Denial {
    // The number that messages name the denial by: that of the question that was answered with no. The enum itself is the denial.
    pub fn number(&self) -> u8
        ensures { result ≡ (refusal self.now).number }
    {
        match self {
            Denial::BlockOutside { .. } => 7,
            Denial::PlaceOutside { .. } => 13,
            Denial::NoCode { .. } => 14,
            Denial::NoRoom => 19,
            Denial::StretchTooLong => 20,
            Denial::GeneratorTooLong => 21,
        }
    }

    // The layer that asked.
    pub fn layer(&self) -> Layer
        ensures { number_of_layer result ≡ (refusal self.now).layer }
    {
        match self {
            Denial::BlockOutside { .. } => Layer::Sheet,
            Denial::PlaceOutside { .. }
            | Denial::NoCode { .. }
            | Denial::NoRoom
            | Denial::StretchTooLong
            | Denial::GeneratorTooLong => Layer::Share,
        }
    }

    // The place that the question was about; 0 where it was about no place, since every denial has a place in messages.
    pub fn place(&self) -> usize
        ensures { result ≡ (refusal self.now).place }
    {
        match self {
            Denial::BlockOutside { block } => *block,
            Denial::PlaceOutside { place } => *place,
            Denial::NoCode { index } => *index,
            Denial::NoRoom | Denial::StretchTooLong | Denial::GeneratorTooLong => 0,
        }
    }
}

impl fmt::Display for Denial {
    ghost output = { λ d. Some (text (refusal d)) };

    fn fmt<W: fmt::Write>(&self, f: &mut fmt::Formatter<W>) -> fmt::Result {
        let number = self.number();
        let layer = u8::from(self.layer());
        let place = self.place();
        write!(f, "denied: number {number}, layer {layer}, place {place}")
    }
}

impl Error for Denial {}

#[cfg(test)]
mod tests {
    use super::*;
    use std::test::Fail;

    #[test]
    fn tells_number_layer_and_place(rt: HostRuntime) -> Result<(), Fail> {
        let block = Denial::BlockOutside { block: 8 };
        assert_eq!(rt;
            format!(in rt.alloc(); "{block}")?.as_str(),
            "denied: number 7, layer 3, place 8"
        );
        let place = Denial::PlaceOutside { place: 544 };
        assert_eq!(rt;
            format!(in rt.alloc(); "{place}")?.as_str(),
            "denied: number 13, layer 2, place 544"
        );
        Ok(())
    }

    #[test]
    fn numbers_the_layers(rt: HostRuntime) {
        assert_eq!(rt; u8::from(Layer::Message), 1);
        assert_eq!(rt; u8::from(Denial::NoRoom.layer()), 2);
        assert_eq!(rt; u8::from(Layer::Sheet), 3);
    }

    #[test]
    fn tells_denials_of_a_generator(rt: HostRuntime) -> Result<(), Fail> {
        let code = Denial::NoCode { index: 5 };
        assert_eq!(rt;
            format!(in rt.alloc(); "{code}")?.as_str(),
            "denied: number 14, layer 2, place 5"
        );
        let length = Denial::GeneratorTooLong;
        assert_eq!(rt;
            format!(in rt.alloc(); "{length}")?.as_str(),
            "denied: number 21, layer 2, place 0"
        );
        Ok(())
    }
}
