// The words of the least tree, from the filled work slice: the root, then its parts.
#![tactic(auto)]

ghost use Rattle.std.specs.Prelude.{◌≡◌, ◌+◌, ◌<◌, length};
ghost use Rattle.rules.specs.Tables.{entry_at, formula_of};
ghost use Rattle.trees.specs.Nodes.{node_of};
ghost use Rattle.trees.specs.inside.Lent.{frame_of};
ghost use Rattle.trees.specs.Least.{ones};
ghost use Rattle.rows.specs.inside.Rows.{row_of};
ghost use Rattle.roots.specs.inside.Rooted.{cell_price};
ghost use Rattle.writing.specs.inside.Writes.{Writable, Room, Rooted, Writes};

use cells::holds;
use parts::{demands_of, part_at};
use roots::root_of;
use rows::Cells;
use rules::{Entry, entry_at};
use scans::{Sought, price_of};
use schedule::LentLetters;
use trees::{Node, proven};

// The word of a root. No conversion by `From`, since not every node fits a word: the roots that are found do.
fn word(root: Node) -> u32
    requires { (root.rule < 256) × (root.atom < 256) × (root.number < 65536) }
    ensures { node_of result ≡ root }
{
    root.rule as u32 * 16777216 + root.atom as u32 * 65536 + root.number as u32
}

// The root of the least tree of an entry at a position.
fn lead(
    letters: &LentLetters<'_>,
    table: &[u32],
    work: &[u16],
    here: Entry,
    entry: usize,
    position: usize,
) -> Node
    requires { Writable ones letters.now.prefix.now letters.now.looped.now table.now entry position work.now
        × (here ≡ entry_at table.now entry) }
    ensures { Rooted ones (frame_of letters.now)
        (formula_of table.now entry) position
        (cell_price (row_of work.now entry position)) result }
{
    let cells = Cells { work };
    let cell = cells.at(entry, position);
    let held = holds(cell);
    let price = price_of(cell, held);
    root_of(
        cells,
        here,
        Sought {
            position,
            held,
            price,
        },
    )
}

// Writes the least tree of an entry at a position into the tree buffer, from a place on; answers the place
// behind it. It calls itself for the parts, which are earlier entries. (A place, since the parts write one
// behind the other into one buffer. The walk goes over parts alike, but reads and can break off.)
pub fn write_tree(
    letters: &LentLetters<'_>,
    table: &[u32],
    work: &[u16],
    tree: &mut [u32],
    entry: usize,
    position: usize,
    place: usize,
) -> usize
    requires { Writable ones letters.now.prefix.now letters.now.looped.now table.now entry position work.now
        × Room ones (frame_of letters.now) (formula_of table.now entry) position place
        (length tree.old) }
    ensures { Writes ones (frame_of letters.now)
        (formula_of table.now entry) position place tree.old tree.new result }
{
    let here = entry_at(table, entry);
    let root = lead(letters, table, work, here, entry, position);
    tree[place] = word(root);
    if root.rule < 3 {
        return place + 1; // rules 1 and 2: most nodes are these, and have no parts
    }
    let demands = demands_of(here, position, proven(root.rule), root.rule, root.number);
    let mut next = place + 1;
    for m in 0..demands.fixed + demands.count {
        let part = part_at(demands, m);
        next = write_tree(letters, table, work, tree, part.entry, part.position, next);
    }
    next
}
