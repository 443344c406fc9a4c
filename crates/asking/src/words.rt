// Refusals in words, those of docs/refusals.txt, and the refusal of a number.
ghost use Rattle.std.specs.Prelude.{Some};
ghost use Rattle.asking.specs.inside.Words.{words_of, Names};

use crate::Refusal;
use std::fmt;

impl fmt::Display for Refusal {
    ghost output = { λ refusal. Some (words_of refusal) };

    fn fmt<W: fmt::Write>(&self, f: &mut fmt::Formatter<W>) -> fmt::Result {
        f.write_str(match self {
            Refusal::EmptyLoop => "the loop is empty",
            Refusal::TooLong => "more than 48 letters",
            Refusal::NoTable => "no entry, or more than 32",
            Refusal::BadEntry => "some entry breaks the kind table",
            Refusal::TooHigh => "some entry's two heights add up to more than 5",
            Refusal::NoEntry => "the asked entry is not in the table",
            Refusal::TooFar => "the asked position is above 255",
            Refusal::ShortWork => "the work slice is shorter than 16384",
            Refusal::NotValid(_) => "the words are no valid tree",
            Refusal::LongTree => "the tree has more than 4095 words",
            Refusal::TooLarge => "the least tree has more than 4095 words",
            Refusal::ShortTree => "the tree buffer is shorter than the least tree",
        })
    }
}

// A number that no refusal has.
#[derive(Clone, Copy, Debug, PartialEq, Eq)]
pub struct NoRefusal(pub u32);

// The refusal of a number, at place 0. (The table of `From`, the other way; `Names` holds the two
// together.)
impl TryFrom<u32> for Refusal {
    type Error = NoRefusal;

    ghost try_from_gives = { Names };

    fn try_from(number: u32) -> Result<Refusal, NoRefusal> {
        match number {
            1 => Ok(Refusal::EmptyLoop),
            2 => Ok(Refusal::TooLong),
            3 => Ok(Refusal::NoTable),
            4 => Ok(Refusal::BadEntry),
            5 => Ok(Refusal::TooHigh),
            6 => Ok(Refusal::NoEntry),
            7 => Ok(Refusal::TooFar),
            8 => Ok(Refusal::ShortWork),
            9 => Ok(Refusal::NotValid(0)),
            10 => Ok(Refusal::LongTree),
            11 => Ok(Refusal::TooLarge),
            12 => Ok(Refusal::ShortTree),
            _ => Err(NoRefusal(number)),
        }
    }
}
