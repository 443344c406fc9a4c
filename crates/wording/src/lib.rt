// Write: the words of the least tree, in the buffer that the caller lends.
#![tactic(auto)]

ghost use Rattle.std.specs.Prelude.{◌≤◌, length};
ghost use Rattle.schedule.specs.Limits.{work_length};
ghost use Rattle.asking.specs.Answers.{figures_of};
ghost use Rattle.asking.specs.Questions.{question_of};
ghost use Rattle.wording.specs.Wrote.{Wrote};
ghost use Rattle.looking.specs.inside.Looked.{FilledIn, CellIn};
ghost use Rattle.wording.specs.inside.WritesOut.{WritesOut};

use asking::{Judged, LentQuestion, Outcome, Passed, Refusal};
use looking::{filled, price_in, verdict_in};
use rules::Table;
use schedule::MAX_WORDS;
use writing::write_tree;

// The least tree's words at the front of the buffer, or why not, from a filled slice and the cell of the
// question. (An outcome, since write answers it as it stands: a type of the two refusals that are left
// would be turned into one at once.)
fn write_out(passed: Passed<'_>, work: &[u16], tree: &mut [u32], cell: u16) -> Outcome
    requires { (work_length ≤ length work.now)
        × FilledIn (question_of passed.question) work.now × CellIn (question_of passed.question) cell }
    ensures { WritesOut (question_of passed.entry.question) tree.old tree.new (figures_of result) }
{
    let question = passed.question;
    let size = price_in(cell);
    if MAX_WORDS < size as usize {
        return Err(Refusal::TooLarge);
    }
    if tree.len() < size as usize {
        return Err(Refusal::ShortTree);
    }
    write_tree(
        &question.letters,
        question.table,
        work,
        tree,
        question.entry,
        question.position,
        0,
    );
    Ok(Judged {
        verdict: verdict_in(cell),
        size,
    })
}

// The least tree of a question that passed its tests, written out, and the slice cleared again.
fn write_words(passed: Passed<'_>, work: &mut [u16], tree: &mut [u32]) -> Outcome
    requires { work_length ≤ length work.old }
    ensures { Wrote (question_of passed.entry.question) work.old work.new tree.old tree.new
        (figures_of result) }
{
    let cell = filled(passed, work);
    let outcome = write_out(passed, work, tree, cell);
    search::clear(work);
    outcome
}

// The words of the least tree for an entry of a table at a position of a schedule.
pub fn write(question: LentQuestion<'_>, work: &mut [u16], tree: &mut [u32]) -> Outcome
    ensures { Wrote (question_of question.entry) work.old work.new tree.old tree.new (figures_of result) }
{
    question.accept_work(work.len())?;
    let record = Table::holding(question.table);
    let table = record.entries();
    let question = LentQuestion { table, ..question };
    write_words(Passed { question }, work, tree)
}
