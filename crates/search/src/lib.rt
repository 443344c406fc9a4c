// One filling of the work slice, row by row, and its clearing.
#![tactic(auto)]

ghost use Rattle.std.specs.Prelude.{◌≡◌, suc, ◌+◌, ◌*◌, ◌<◌, ◌≤◌, length};
ghost use Rattle.trees.specs.inside.Lent.{frame_of};
ghost use Rattle.trees.specs.Least.{ones};
ghost use Rattle.search.specs.inside.Filling.{FilledBelow, Limited, Fills};
ghost use Rattle.schedule.specs.Buffers.{cleared};
ghost use Rattle.schedule.specs.Limits.{work_length};

use cells::Connective;
use heights::height;
use rows::{atom_row, plain_row, since_row, until_row};
use rules::{Binary, Entry, Side, Unary, entry_at};
use schedule::{LentLetters, Schedule, WORK_LENGTH};

// A row by its entry's kind, from the rows before it. A broken entry reads as atom 0. (What a filling
// relies on and leaves has names, `Limited` and `Fills`: a value of a type would be made for each row.)
fn fill_row(letters: LentLetters<'_>, table: &[u32], work: &mut [u16], row: usize, reach: usize)
    requires { Limited (length letters.prefix.now) (length letters.looped.now) reach table.now row
        (length work.old)
        × FilledBelow ones (frame_of letters) table.now reach (length letters.looped.now)
        row work.old }
    ensures { Fills ones (frame_of letters.entry)
        table.now reach (length letters.entry.looped.now) (suc row) work.old
        work.new }
{
    let lap = letters.looped.len();
    let cols = reach + lap * (Schedule::MAX_HEIGHT - height(table, row, Side::Future));
    match entry_at(table, row) {
        Entry::Atom(a) => atom_row(letters, work, row, a, cols),
        Entry::One(Unary::Not, l) => plain_row(work, row, Connective::Not, l, l, cols),
        Entry::Two(Binary::Or, l, r) => plain_row(work, row, Connective::Or, l, r, cols),
        Entry::Two(Binary::And, l, r) => plain_row(work, row, Connective::And, l, r, cols),
        Entry::Two(Binary::Since, l, r) => since_row(work, row, l, r, cols),
        Entry::Two(Binary::Until, l, r) => {
            let start = letters.prefix.len() + lap * height(table, r, Side::Past);
            until_row(work, row, l, r, cols, lap, start)
        }
        Entry::Broken => atom_row(letters, work, row, 0, cols),
    }
}

// Every row up to the asked entry, whatever the slice held before.
pub fn fill(letters: LentLetters<'_>, table: &[u32], work: &mut [u16], entry: usize, reach: usize)
    requires { Limited (length letters.prefix.now) (length letters.looped.now) reach table.now entry
        (length work.old) }
    ensures { Fills ones (frame_of letters.entry)
        table.now reach (length letters.entry.looped.now) (suc entry) work.old
        work.new }
{
    for row in 0..=entry {
        fill_row(letters, table, work, row, reach);
    }
}

// The numbers of the filling become 0 again, whatever they were.
pub fn clear(work: &mut [u16])
    requires { work_length ≤ length work.old }
    ensures { work.new ≡ cleared work.old }
{
    work[..WORK_LENGTH].fill(0);
}
