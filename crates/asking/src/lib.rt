// A question put to its tests, in one order for all entry points; every answer, and its figures.
#![tactic(auto)]

ghost use Rattle.std.specs.Prelude.{◌≡◌, Err};
ghost use Rattle.schedule.specs.Lengths.{made_figures};
ghost use Rattle.schedule.specs.Tests.{AllPass};
ghost use Rattle.asking.specs.Answers.{number_of, place_of, refused, figures_of, answer_of};
ghost use Rattle.asking.specs.Questions.{question_of, table_tests, question_tests, length_test, work_tests};
ghost use Rattle.asking.specs.inside.Gates.{Gates};
ghost use Rattle.asking.specs.inside.Passing.{all_pass_prop};

use schedule::{LengthError, LentLetters, MAX_POSITION, Schedule, WORK_LENGTH};
use trees::Verdict;

mod words;

pub use words::NoRefusal;

// Every refusal; 9 has the place where words are no tree.
#[derive(Clone, Copy, Debug, PartialEq, Eq)]
pub enum Refusal {
    EmptyLoop,
    TooLong,
    NoTable,
    BadEntry,
    TooHigh,
    NoEntry,
    TooFar,
    ShortWork,
    NotValid(u32),
    LongTree,
    TooLarge,
    ShortTree,
}

// What a call answers that does not refuse: a verdict with a size, 0 where none is given. (The size has 32
// bits, as it crosses to C; beside a length it is cast, for usize has no From<u32>.)
#[derive(Clone, Copy)]
pub struct Judged {
    pub verdict: Verdict,
    pub size: u32,
}

// Every answer of every entry point. (Contracts speak of its figures, which cross to C.)
pub type Outcome = Result<Judged, Refusal>;

// The figures of an answer, as they cross to C.
#[repr(C)]
#[derive(Clone, Copy)]
pub struct Answer {
    pub number: u32,
    pub place: u32,
    pub verdict: u32,
    pub size: u32,
}

// What is asked: whether an entry of a table holds at a position of a schedule.
#[derive(Clone, Copy)]
pub struct LentQuestion<'a> {
    pub letters: LentLetters<'a>,
    pub table: &'a [u32],
    pub entry: usize,
    pub position: usize,
}

// A question that passed its tests.
#[derive(Clone, Copy)]
pub struct Passed<'a> {
    pub question: LentQuestion<'a>,
    pub ghost tests: { AllPass (question_tests (question_of question)) } by { all_pass_prop _ },
}

impl<'a> LentQuestion<'a> {
    // Refusals 3 to 7 in order, of the table and what is asked of it. (3 is one test of the list, in two
    // ifs: no entry, too many. Each function answers a list of tests of its own, and says so by `Gates`.)
    fn accept_table(self) -> Result<(), Refusal>
        ensures { Gates (table_tests self.entry.table.now self.entry.entry self.entry.position) result }
    {
        if self.table.is_empty() {
            return Err(Refusal::NoTable);
        }
        if Schedule::MAX_ENTRIES < self.table.len() {
            return Err(Refusal::NoTable);
        }
        if !rules::all_keep(self.table) {
            return Err(Refusal::BadEntry);
        }
        if !heights::all_low(self.table) {
            return Err(Refusal::TooHigh);
        }
        if self.table.len() <= self.entry {
            return Err(Refusal::NoEntry);
        }
        if MAX_POSITION < self.position {
            return Err(Refusal::TooFar);
        }
        Ok(())
    }

    // Refusals 1 to 7 in order: 1 and 2 by the constructor of the lengths.
    pub fn accept(self) -> Result<(), Refusal>
        ensures { Gates (question_tests (question_of self.entry)) result }
    {
        Schedule::new(self.letters.prefix.len(), self.letters.looped.len())?;
        self.accept_table()
    }

    // Refusals 1 to 8 in order, for the entry points that work in a lent slice; its length is all that is
    // tested of it.
    pub fn accept_work(self, work: usize) -> Result<(), Refusal>
        ensures { Gates (work_tests (question_of self.entry) work) result }
    {
        self.accept()?;
        accept_length(work)
    }
}

// Refusal 8.
fn accept_length(work: usize) -> Result<(), Refusal>
    ensures { Gates (length_test work) result }
{
    if work < WORK_LENGTH {
        return Err(Refusal::ShortWork);
    }
    Ok(())
}

impl From<LengthError> for Refusal {
    ghost from_gives = { λ error refusal. refused refusal ≡ made_figures (Err error) };

    fn from(error: LengthError) -> Refusal {
        match error {
            LengthError::EmptyLoop => Refusal::EmptyLoop,
            LengthError::TooLong => Refusal::TooLong,
        }
    }
}

// The number of a refusal.
impl From<Refusal> for u32 {
    ghost from_gives = { λ refusal number. number ≡ number_of refusal };

    fn from(refusal: Refusal) -> u32 {
        match refusal {
            Refusal::EmptyLoop => 1,
            Refusal::TooLong => 2,
            Refusal::NoTable => 3,
            Refusal::BadEntry => 4,
            Refusal::TooHigh => 5,
            Refusal::NoEntry => 6,
            Refusal::TooFar => 7,
            Refusal::ShortWork => 8,
            Refusal::NotValid(_) => 9,
            Refusal::LongTree => 10,
            Refusal::TooLarge => 11,
            Refusal::ShortTree => 12,
        }
    }
}

// The figures of an outcome: the one place where a case becomes numbers.
impl From<Outcome> for Answer {
    ghost from_gives = { λ outcome answer. answer_of answer ≡ figures_of outcome };

    fn from(outcome: Outcome) -> Answer {
        match outcome {
            Ok(judged) => Answer {
                number: 0,
                place: 0,
                verdict: u32::from(judged.verdict),
                size: judged.size,
            },
            Err(refusal) => Answer {
                number: u32::from(refusal),
                place: refusal.place(),
                verdict: 0,
                size: 0,
            },
        }
    }
}

impl Refusal {
    // The place of 9, else 0.
    fn place(self) -> u32
        ensures { result ≡ place_of self }
    {
        match self {
            Refusal::NotValid(place) => place,
            _ => 0,
        }
    }
}
