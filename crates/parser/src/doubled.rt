ghost use Rattle.std.specs.Prelude.{◌≡◌, [], ◌∷◌};
ghost use Rattle.parser.specs.Bytes.{machine};
ghost use Rattle.parser.specs.Doubled.{doubled_step};
ghost use Rattle.parser.specs.First.{StopsAtFirst, ends_after};
ghost use Rattle.parser.specs.declared.doubled.DoubledParser.TheVariants.{Seen0};

use crate::bytes::ByteParser;

// Finds the first `>` right after two marks: how many marks came right before, two for more.
#[derive(Clone, Copy, Debug, PartialEq, Eq)]
pub enum DoubledParser<const MARK: u8> {
    Seen0,
    Seen1,
    Seen2,
}

impl<const MARK: u8> ByteParser for DoubledParser<MARK> {
    ghost next = { doubled_step };

    fn step(&mut self, b: u8) -> bool {
        *self = match (*self, b) {
            (Self::Seen2, b'>') => return true,
            (Self::Seen0, b) if b == MARK => Self::Seen1,
            (_, b) if b == MARK => Self::Seen2,
            _ => Self::Seen0,
        };
        false
    }
}

impl<const MARK: u8> Default for DoubledParser<MARK> {
    ghost is_default = { λ s. s ≡ Seen0 };

    // It stops just at the first `>` right after two marks, whichever faults are due.
    fn default() -> DoubledParser<MARK>
        ensures fresh { result ≡ Seen0 }
        ensures first { (due : _) → StopsAtFirst (machine doubled_step due result) (ends_after (MARK ∷ MARK ∷ [])) }
    {
        DoubledParser::Seen0
    }
}
