// Schedules: the lengths of prefix and loop with the limits of the job, the two lists of letters, their
// view, and the letter at a position.
#![tactic(auto)]

ghost use Rattle.std.specs.Prelude.{◌≡◌, ◌/◌, ◌%◌, ◌^◌};
ghost use Rattle.schedule.specs.Lengths.{Makes};
ghost use Rattle.schedule.specs.Letters.{View, letter_at};

// The largest position that can be asked, the most words of a tree, and the least length of a work slice.
pub const MAX_POSITION: usize = 255;

pub const MAX_WORDS: usize = 4095;

pub const WORK_LENGTH: usize = 16384;

// The lengths of a schedule: letters in the prefix, letters in the loop. (The lists themselves stay lent.)
#[derive(Clone, Copy)]
pub struct Schedule {
    pub prefix: usize,
    pub looped: usize,
}

// Why two lengths make no schedule.
#[derive(Clone, Copy, Debug, PartialEq, Eq)]
pub enum LengthError {
    EmptyLoop,
    TooLong,
}

impl Schedule {
    pub const MAX_LETTERS: usize = 48;

    pub const MAX_ENTRIES: usize = 32;

    pub const MAX_HEIGHT: usize = 5;

    // The schedule of two lengths, or the first refusal that they earn.
    #[tactic(auto, using(crate::proofs::Lengths::made))]
    pub fn new(prefix: usize, looped: usize) -> Result<Schedule, LengthError>
        ensures { Makes prefix looped result }
    {
        if looped == 0 {
            return Err(LengthError::EmptyLoop);
        }
        if Schedule::MAX_LETTERS < prefix {
            return Err(LengthError::TooLong);
        }
        if Schedule::MAX_LETTERS - prefix < looped {
            return Err(LengthError::TooLong); // a difference, since the sum could wrap
        }
        Ok(Schedule { prefix, looped })
    }
}

// The letters of a schedule, as they are lent: those of the prefix and those of the loop.
#[derive(Clone, Copy)]
pub struct LentLetters<'a> {
    pub prefix: &'a [u32],
    pub looped: &'a [u32],
}

impl<'a> LentLetters<'a> {
    // The rest of the prefix from a position on, or the rest of the loop from the letter in
    // force: a part of the caller's list. (Tested, since `get` answers an empty rest at the prefix's end
    // too.)
    pub fn view(self, position: usize) -> &'a [u32]
        ensures { View self.entry.prefix self.entry.looped position result }
    {
        if position < self.prefix.len() {
            return &self.prefix[position..];
        }
        if self.looped.is_empty() {
            return self.looped;
        }
        let from = (position - self.prefix.len()) % self.looped.len();
        &self.looped[from..]
    }

    // The letter at a position: the first of the view, 0 where an empty loop shows none.
    pub fn letter(self, position: usize) -> u32
        ensures { result ≡ letter_at self.entry.prefix.now self.entry.looped.now position }
    {
        self.view(position).first().copied().unwrap_or(0)
    }
}

// Bit of an atom in a letter: 1 if the atom holds in it, else 0; a number, as the contract has it. A letter
// has no atom past 31.
#[tactic(auto, using(crate::proofs::Bits::no_bit))]
pub fn bit(letter: u32, atom: usize) -> u32
    ensures { result ≡ letter / 2 ^ atom % 2 }
{
    if 31 < atom {
        return 0;
    }
    (letter >> atom) % 2
}
