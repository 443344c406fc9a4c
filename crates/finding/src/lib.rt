// Truth and find: what the cell of the question says, as an answer.
#![tactic(auto)]

ghost use Rattle.std.specs.Prelude.{◌≡◌, Ok};
ghost use Rattle.asking.specs.Answers.{figures_of};
ghost use Rattle.asking.specs.Questions.{question_of};
ghost use Rattle.finding.specs.Told.{Told};
ghost use Rattle.finding.specs.Found.{Found};
ghost use Rattle.finding.specs.inside.Telling.{told_by, found_by};

use asking::{Judged, LentQuestion, Outcome, Refusal};
use looking::{look_up, price_in, verdict_in};
use schedule::MAX_WORDS;

#[tactic(auto, unfolding(crate::specs::inside::Telling::told_by))]
fn told_by(cell: u16) -> Judged
    ensures { figures_of (Ok result) ≡ told_by cell }
{
    Judged {
        verdict: verdict_in(cell),
        size: 0,
    }
}

// 11, or the least size: each node costs 1, so it is the price. (Write tests alike, and goes on to 12.)
#[tactic(auto, unfolding(crate::specs::inside::Telling::found_by))]
fn found_by(cell: u16) -> Outcome
    ensures { figures_of result ≡ found_by cell }
{
    let size = price_in(cell);
    if MAX_WORDS < size as usize {
        return Err(Refusal::TooLarge);
    }
    Ok(Judged {
        verdict: verdict_in(cell),
        size,
    })
}

// Whether an entry of a table holds at a position of a schedule, without a tree.
pub fn truth(question: LentQuestion<'_>, work: &mut [u16]) -> Outcome
    ensures { Told (question_of question.entry) work.old work.new (figures_of result) }
{
    Ok(told_by(look_up(question, work)?))
}

// The verdict and the size of the least tree for an entry of a table at a position of a schedule.
pub fn find(question: LentQuestion<'_>, work: &mut [u16]) -> Outcome
    ensures { Found (question_of question.entry) work.old work.new (figures_of result) }
{
    found_by(look_up(question, work)?)
}
