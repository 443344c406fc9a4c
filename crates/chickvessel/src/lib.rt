// The calls from C: check, truth, find and write, each answered in four figures.
#![tactic(auto)]

ghost use Rattle.std.specs.Prelude.{◌≡◌};
ghost use Rattle.asking.specs.Answers.{answer_of};
ghost use Rattle.asking.specs.Questions.{question, question_of};
ghost use Rattle.checking.specs.Checked.{Checked};
ghost use Rattle.finding.specs.Told.{Told};
ghost use Rattle.finding.specs.Found.{Found};
ghost use Rattle.wording.specs.Wrote.{Wrote};

use asking::{Answer, LentQuestion};
use checking::check;
use finding::{find, truth};
use schedule::LentLetters;
use wording::write;

// What is asked by the five parameters that every call has. (C gets a function and a contract for each call.)
fn asked<'a>(
    prefix: &'a [u32],
    looped: &'a [u32],
    table: &'a [u32],
    entry: usize,
    position: usize,
) -> LentQuestion<'a>
    ensures { question_of result ≡ question prefix.now looped.now table.now entry position }
{
    LentQuestion {
        letters: LentLetters { prefix, looped },
        table,
        entry,
        position,
    }
}

#[unsafe(no_mangle)]
pub extern "C" fn chickvessel_check<'a>(
    prefix: &'a [u32],
    looped: &'a [u32],
    table: &[u32],
    entry: usize,
    position: usize,
    tree: &[u32],
) -> Answer
    ensures { Checked
        (question prefix.now looped.now table.now entry position)
        tree.now (answer_of result) }
{
    let question = asked(prefix, looped, table, entry, position);
    Answer::from(check(question, tree))
}

#[unsafe(no_mangle)]
pub extern "C" fn chickvessel_truth<'a>(
    prefix: &'a [u32],
    looped: &'a [u32],
    table: &[u32],
    entry: usize,
    position: usize,
    work: &mut [u16],
) -> Answer
    ensures { Told
        (question prefix.now looped.now table.now entry position)
        work.old work.new (answer_of result) }
{
    let question = asked(prefix, looped, table, entry, position);
    Answer::from(truth(question, work))
}

#[unsafe(no_mangle)]
pub extern "C" fn chickvessel_find<'a>(
    prefix: &'a [u32],
    looped: &'a [u32],
    table: &[u32],
    entry: usize,
    position: usize,
    work: &mut [u16],
) -> Answer
    ensures { Found
        (question prefix.now looped.now table.now entry position)
        work.old work.new (answer_of result) }
{
    let question = asked(prefix, looped, table, entry, position);
    Answer::from(find(question, work))
}

#[unsafe(no_mangle)]
pub extern "C" fn chickvessel_write<'a>(
    prefix: &'a [u32],
    looped: &'a [u32],
    table: &[u32],
    entry: usize,
    position: usize,
    work: &mut [u16],
    tree: &mut [u32],
) -> Answer
    ensures { Wrote
        (question prefix.now looped.now table.now entry position)
        work.old work.new tree.old tree.new (answer_of result) }
{
    let question = asked(prefix, looped, table, entry, position);
    Answer::from(write(question, work, tree))
}
