// The root of the least tree, from the filled cells: the first in the order of words that meets the price.
// Rules are their numbers, as in the constant table; a broken entry reads as atom 0.
#![tactic(auto)]

ghost use Rattle.std.specs.Prelude.{◌≡◌, ◌+◌, ◌≤◌, ◌<◌, true, false, cond, eqb};
ghost use Rattle.rows.specs.inside.Rows.{row_of, row_length};
ghost use Rattle.scans.specs.inside.Scans.{price_in, prices_from, Reached};
ghost use Rattle.roots.specs.inside.Roots.{root_with, sided_of, or_rule, and_rule, list_rule, ListRoot};
ghost use Rattle.roots.specs.inside.Roots.{Readable, RootFor};
ghost use Rattle.schedule.specs.Limits.{max_entries};

use rows::Cells;
use rules::{Binary, Entry};
use scans::{Sought, price_of, scan};
use trees::Node;

// A root of rules 3 to 10, which says no more.
fn plain_root(rule: usize) -> Node
    ensures { result ≡ root_with rule 0 0 }
{
    Node {
        rule,
        atom: 0,
        number: 0,
    }
}

// The rule of what holds, or the one after it. (Verdict and direction are bools, as in a scan.)
#[tactic(auto, unfolding(crate::specs::inside::Roots::sided_of))]
fn sided(held: bool, rule: usize) -> usize
    requires { rule ≤ 3 }
    ensures { result ≡ sided_of held rule }
{
    if held { rule } else { rule + 1 }
}

// Where one part is enough: the rule of the left part if that is as small as any, or else of the right one.
fn either(left: usize, right: usize, cell: u16, sought: Sought) -> usize
    ensures { result ≡ cond (eqb (1 + price_in sought.held cell) sought.price) left right }
{
    if 1 + price_of(cell, sought.held) == sought.price {
        left
    } else {
        right
    }
}

// Rules 5 to 7; 8 to 10 are their mirror. (One function for both would take which is which, and say less.)
#[tactic(auto, unfolding(crate::specs::inside::Roots::or_rule, scans::specs::inside::Scans::price_in))]
fn or_rule(cell: u16, sought: Sought) -> usize
    ensures { result ≡ or_rule sought.held cell sought.price }
{
    if sought.held {
        either(5, 6, cell, sought)
    } else {
        7
    }
}

// Rules 8 to 10.
#[tactic(auto, unfolding(crate::specs::inside::Roots::and_rule, scans::specs::inside::Scans::price_in))]
fn and_rule(cell: u16, sought: Sought) -> usize
    ensures { result ≡ and_rule sought.held cell sought.price }
{
    if sought.held {
        8
    } else {
        either(9, 10, cell, sought)
    }
}

// Of the three rules of a list, from the first on: what holds has that, what is violated the next,
// or the last where its list stands alone.
#[tactic(auto, unfolding(crate::specs::inside::Roots::list_rule))]
fn list_rule(first: usize, held: bool, alone: bool) -> usize
    requires { first ≤ 14 }
    ensures { result ≡ list_rule first held alone }
{
    match (held, alone) {
        (true, _) => first,
        (false, false) => first + 1,
        (false, true) => first + 2,
    }
}

// Rules 11 to 13 going back, 14 to 16 going ahead.
fn list_root(
    cells: Cells<'_>,
    left: usize,
    right: usize,
    ahead: bool,
    first: usize,
    sought: Sought,
) -> Node
    requires { (first ≤ 14) × (left < max_entries) × (right < max_entries)
        × Reached (prices_from (row_of cells.work.now (cond sought.held right left)) sought.held ahead
        sought.position)
        (prices_from (row_of cells.work.now (cond sought.held left right)) sought.held ahead sought.position)
        sought.held ahead sought.position sought.price }
    ensures { ListRoot cells.entry.work.now left right sought.position sought.held ahead sought.price first
        result }
{
    let met = if sought.held {
        scan(cells, right, left, ahead, sought)
    } else {
        scan(cells, left, right, ahead, sought)
    };
    Node {
        rule: list_rule(first, sought.held, met.alone),
        atom: 0,
        number: met.count,
    }
}

// The first root of an entry's kind, in the order of the words, that has the price with its parts.
pub fn root_of(cells: Cells<'_>, here: Entry, sought: Sought) -> Node
    requires { (sought.position < row_length)
        × Readable cells.work.now here sought.position sought.held sought.price }
    ensures { RootFor cells.entry.work.now here sought.position sought.held sought.price result }
{
    let Sought { position, held, .. } = sought;
    match here {
        Entry::Atom(a) => Node {
            rule: sided(held, 1),
            atom: a,
            number: position,
        },
        Entry::One(_, _) => plain_root(sided(held, 3)),
        Entry::Two(Binary::Or, l, _) => plain_root(or_rule(cells.at(l, position), sought)),
        Entry::Two(Binary::And, l, _) => plain_root(and_rule(cells.at(l, position), sought)),
        Entry::Two(Binary::Since, l, r) => list_root(cells, l, r, false, 11, sought),
        Entry::Two(Binary::Until, l, r) => list_root(cells, l, r, true, 14, sought),
        Entry::Broken => Node {
            rule: sided(held, 1),
            atom: 0,
            number: position,
        },
    }
}
