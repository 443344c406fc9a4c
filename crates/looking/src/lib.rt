// The cell of a question: the work slice filled, the cell of the asked position, and what it says.
#![tactic(auto)]

ghost use Rattle.std.specs.Prelude.{◌≡◌, ◌≤◌, length, Ok};
ghost use Rattle.schedule.specs.Limits.{work_length};
ghost use Rattle.roots.specs.inside.Rooted.{cell_price};
ghost use Rattle.asking.specs.Questions.{question_of};
ghost use Rattle.looking.specs.inside.Looked.{verdict_in, CellRead, Looked};

use asking::{LentQuestion, Passed, Refusal};
use cells::holds;
use rows::Cells;
use rules::Table;
use scans::price_of;
use trees::Verdict;

// The slice filled up to the asked entry, and the cell of the asked position.
pub fn filled(passed: Passed<'_>, work: &mut [u16]) -> u16
    requires { work_length ≤ length work.old }
    ensures { CellRead (question_of passed.entry.question) work.old work.new result }
{
    let question = passed.question;
    // the columns that are needed: past the prefix and past the position
    let reach = question.letters.prefix.len().max(question.position + 1);
    search::fill(
        question.letters,
        question.table,
        work,
        question.entry,
        reach,
    );
    Cells { work }.at(question.entry, question.position)
}

// The cell of a question that passed its tests: one filling, and the slice cleared again. (Write fills and
// clears alike: a closure for what comes between would bring its contract along.)
fn look_words(passed: Passed<'_>, work: &mut [u16]) -> u16
    requires { work_length ≤ length work.old }
    ensures { Looked (question_of passed.entry.question) work.old work.new (Ok result) }
{
    let cell = filled(passed, work);
    search::clear(work);
    cell
}

// What truth and find answer from: the cell of the question, or a refusal.
pub fn look_up(question: LentQuestion<'_>, work: &mut [u16]) -> Result<u16, Refusal>
    ensures { Looked (question_of question.entry) work.old work.new result }
{
    question.accept_work(work.len())?;
    let record = Table::holding(question.table);
    let table = record.entries();
    let question = LentQuestion { table, ..question };
    Ok(look_words(Passed { question }, work))
}

// The verdict of a cell. (No From<bool>: that a bool is a verdict is not said by its type.)
#[tactic(auto, unfolding(crate::specs::inside::Looked::verdict_in))]
pub fn verdict_in(cell: u16) -> Verdict
    ensures { result ≡ verdict_in cell }
{
    if holds(cell) {
        Verdict::Holds
    } else {
        Verdict::Violated
    }
}

// What the least tree costs.
#[tactic(auto, unfolding(roots::specs::inside::Rooted::cell_price))]
pub fn price_in(cell: u16) -> u32
    ensures { result ≡ cell_price cell }
{
    price_of(cell, holds(cell))
}
