// The walk through a tree: every word tested, in tree order.
#![tactic(auto)]

ghost use Rattle.std.specs.Prelude.{◌+◌, ◌≤◌, ◌<◌, map, length};
ghost use Rattle.rules.specs.Tables.{formula_of};
ghost use Rattle.trees.specs.Nodes.{node_of};
ghost use Rattle.trees.specs.Rules.{claim};
ghost use Rattle.trees.specs.inside.Lent.{frame_of};
ghost use Rattle.nodes.specs.inside.Tested.{Within};
ghost use Rattle.walks.specs.inside.Walks.{Walks};

use nodes::node_fits;
use parts::{demands_of, part_at};
use rules::entry_at;
use schedule::LentLetters;
use trees::{Node, Verdict};

// The place of the word at which words break off from being a tree.
#[derive(Clone, Copy, Debug, PartialEq, Eq)]
pub struct Broken {
    pub place: usize,
}

// The walk through a tree for an entry, a position and a needed verdict, from a place on: the place behind
// the tree. It calls itself for the parts, which are earlier entries. (What is needed of a part stands in
// three parameters: a struct by value would deepen every level of the stack. The place is one too, since it
// is what is answered where words break off.)
pub fn walk(
    letters: &LentLetters<'_>,
    table: &[u32],
    tree: &[u32],
    entry: usize,
    position: usize,
    needed: Verdict,
    place: usize,
) -> Result<usize, Broken>
    requires { Within (length letters.now.prefix.now) (length letters.now.looped.now) entry position
        × (place ≤ length tree.now) }
    ensures { Walks (frame_of letters.now)
        (claim (formula_of table.now entry) position needed)
        (map node_of tree.now) place result }
{
    let Some(&word) = tree.get(place) else {
        return Err(Broken { place });
    };
    let here = entry_at(table, entry);
    if !node_fits(*letters, table, here, entry, position, needed, word) {
        return Err(Broken { place });
    }
    let Node { rule, number, .. } = Node::from(word);
    if rule < 3 {
        return Ok(place + 1); // rules 1 and 2: most nodes are these, and have no parts
    }
    let demands = demands_of(here, position, needed, rule, number);
    let mut next = place + 1;
    for m in 0..demands.fixed + demands.count {
        let part = part_at(demands, m);
        next = walk(
            letters,
            table,
            tree,
            part.entry,
            part.position,
            demands.verdict,
            next,
        )?;
    }
    Ok(next)
}
