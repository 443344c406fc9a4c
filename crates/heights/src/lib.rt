// The two heights of an entry, worked out by following its parts down, and whether all are within the limit.
#![tactic(auto)]

ghost use Rattle.std.specs.Prelude.{◌≡◌, ◌<◌, length};
ghost use Rattle.rules.specs.Formula.{height};
ghost use Rattle.rules.specs.Tables.{formula_of};
ghost use Rattle.rules.specs.Low.{low_at, low_all};
ghost use Rattle.heights.specs.inside.Additions.{adds_of};

use rules::{Binary, Entry, Side, entry_at};
use schedule::Schedule;

// What an operator adds to the greater height of its two parts.
fn adds(op: Binary, side: Side) -> usize
    ensures { result ≡ adds_of side op }
{
    match (op, side) {
        (Binary::Since, Side::Past) | (Binary::Until, Side::Future) => 1,
        _ => 0,
    }
}

// A height of an entry, worked out by following its parts down; once where both are the same entry. (What
// an entry means is said by table and index, in each contract that follows entries down.)
pub fn height(table: &[u32], entry: usize, side: Side) -> usize
    ensures { result ≡ height side (formula_of table.now entry) }
{
    match entry_at(table, entry) {
        Entry::Atom(_) | Entry::Broken => 0,
        Entry::One(_, part) => height(table, part, side),
        Entry::Two(op, left, right) => {
            let added = adds(op, side); // before the parts are followed: no level keeps the operator
            let higher = height(table, left, side);
            if left == right {
                higher + added
            } else {
                higher.max(height(table, right, side)) + added
            }
        }
    }
}

// Whether the two heights of an entry add up to no more than the limit.
#[tactic(auto, using(crate::proofs::Heights::height_bound))]
fn low(table: &[u32], entry: usize) -> bool
    requires { entry < length table.now }
    ensures { result ≡ low_at table.now entry }
{
    height(table, entry, Side::Past) + height(table, entry, Side::Future) <= Schedule::MAX_HEIGHT
}

// Whether every entry of a list has heights within the limit.
pub fn all_low(table: &[u32]) -> bool
    ensures { result ≡ low_all table.now }
{
    (0..table.len()).all(|entry| low(table, entry))
}
