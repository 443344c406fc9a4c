// Check: whether words are a valid tree for a question, or where they break off.
#![tactic(auto)]

ghost use Rattle.asking.specs.Answers.{figures_of};
ghost use Rattle.asking.specs.Questions.{question_of};
ghost use Rattle.checking.specs.Checked.{Checked};

use asking::{Judged, LentQuestion, Outcome, Passed, Refusal};
use rules::Table;
use schedule::MAX_WORDS;
use trees::claimed;
use walks::walk;

// Words that are judged: 10, the verdict of a valid tree, or the place where they break off from being one.
fn judge(passed: Passed<'_>, tree: &[u32]) -> Outcome
    ensures { Checked (question_of passed.entry.question) tree.now (figures_of result) }
{
    let question = passed.question;
    if MAX_WORDS < tree.len() {
        return Err(Refusal::LongTree);
    }
    let Some(root) = tree.first() else {
        return Err(Refusal::NotValid(0));
    };
    let verdict = claimed(*root);
    // the three ends of a walk, two of them 9 at a place of their own; places fit 32 bits, since they are
    // at most 4,095
    match walk(
        &question.letters,
        question.table,
        tree,
        question.entry,
        question.position,
        verdict,
        0,
    ) {
        Ok(after) if after == tree.len() => Ok(Judged { verdict, size: 0 }),
        Ok(after) => Err(Refusal::NotValid(after as u32)), // words are left over
        Err(broken) => Err(Refusal::NotValid(broken.place as u32)),
    }
}

// Whether the words are a valid tree for an entry of a table at a position of a schedule.
pub fn check(question: LentQuestion<'_>, tree: &[u32]) -> Outcome
    ensures { Checked (question_of question.entry) tree.now (figures_of result) }
{
    question.accept()?;
    let record = Table::holding(question.table);
    let table = record.entries();
    let question = LentQuestion { table, ..question };
    judge(Passed { question }, tree)
}
