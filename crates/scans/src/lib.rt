// A scan along a list for the first witness with which a root meets its price, ahead or back from a position.
#![tactic(auto)]

ghost use Rattle.std.specs.Prelude.{◌≡◌, ◌+◌, ◌≤◌, ◌<◌, true, false};
ghost use Rattle.rows.specs.inside.Rows.{row_of, row_length};
ghost use Rattle.scans.specs.inside.Scans.{price_in, step_from, members_of, listed_of, prices_from, Reached};
ghost use Rattle.scans.specs.inside.Scans.{Scanned};
ghost use Rattle.schedule.specs.Limits.{max_entries};

use cells::{con, pro};
use rows::{Cells, ROW_LENGTH};

// What is sought at a position: a root of the verdict whose price, with its parts, is the one given.
#[derive(Clone, Copy)]
pub struct Sought {
    pub position: usize,
    pub held: bool,
    pub price: u32,
}

// Where a scan ends: how many members the list has, and whether it stands alone, with no first part before
// it. The flag tells the rule, and the count is there either way, so an enum would hold it in both cases.
#[derive(Clone, Copy)]
pub struct Met {
    pub count: usize,
    pub alone: bool,
}

// The price of a tree of the verdict, or 4,096. A verdict is a bool here, as a cell has it and the
// definitions speak of it: an enum would be turned into one in every clause.
#[tactic(auto, unfolding(crate::specs::inside::Scans::price_in))]
pub fn price_of(cell: u16, held: bool) -> u32
    ensures { (result ≡ price_in held cell) × (result ≤ 65535) }
{
    if held { pro(cell) } else { con(cell) }
}

// The same of an entry at a position.
fn price_at(cells: Cells<'_>, entry: usize, position: usize, held: bool) -> u32
    requires { (entry < max_entries) × (position < row_length) }
    ensures { (result ≡ price_in held (row_of cells.entry.work.now entry position)) × (result ≤ 65535) }
{
    price_of(cells.at(entry, position), held)
}

// The position some steps ahead, or back. The direction is a bool as well, as in the definitions: with an
// enum or a closure the clauses of the scan would need the bool beside it.
#[tactic(auto, unfolding(crate::specs::inside::Scans::step_from))]
fn step_from(position: usize, n: usize, ahead: bool) -> usize
    requires { (position + n < 1024) × (ahead ≡ false → n ≤ position) }
    ensures { result ≡ step_from ahead position n }
{
    if ahead { position + n } else { position - n }
}

// The list's members where the witness is some steps off: what is violated is so at the witness too.
#[tactic(auto, unfolding(crate::specs::inside::Scans::members_of))]
fn members(n: usize, held: bool) -> usize
    requires { n < 1024 }
    ensures { result ≡ members_of held n }
{
    if held { n } else { n + 1 }
}

// The root and its list, with the member at the witness or without.
#[tactic(auto, unfolding(crate::specs::inside::Scans::listed_of))]
fn listed(sum: u32, member: u32, held: bool) -> u32
    requires { sum + member < 4294967296 }
    ensures { result ≡ listed_of held sum member }
{
    if held { sum } else { sum + member }
}

// The first witness, going ahead or back from the position, at which a root with its parts has
// the price, or its list alone has. It lies in the row, so the scan ends there or before.
pub fn scan(cells: Cells<'_>, witness: usize, member: usize, ahead: bool, sought: Sought) -> Met
    requires { (witness < max_entries) × (member < max_entries)
        × Reached (prices_from (row_of cells.work.now witness) sought.held ahead sought.position)
        (prices_from (row_of cells.work.now member) sought.held ahead sought.position) sought.held ahead
        sought.position sought.price }
    ensures { Scanned (prices_from (row_of cells.entry.work.now witness) sought.held ahead sought.position)
        (prices_from (row_of cells.entry.work.now member) sought.held ahead sought.position) sought.held
        sought.price result }
{
    let Sought {
        position,
        held,
        price,
    } = sought;
    let mut sum: u32 = 1;
    for n in 0..ROW_LENGTH {
        let place = step_from(position, n, ahead);
        let next = price_at(cells, member, place, held);
        let list = listed(sum, next, held);
        if list + price_at(cells, witness, place, held) == price {
            return Met {
                count: members(n, held),
                alone: false,
            };
        }
        if list == price {
            return Met {
                count: members(n, held),
                alone: true,
            };
        }
        sum += next;
    }
    unreachable!()
}
