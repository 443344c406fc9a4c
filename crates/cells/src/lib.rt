// The number that a cell of the work slice holds, and how it comes from the cells of the parts.
#![tactic(auto)]

ghost use Rattle.std.specs.Prelude.{◌≡◌, ◌+◌, ◌/◌, ◌%◌, ◌^◌, ◌≤◌, true};
ghost use Rattle.cells.specs.inside.Cells.{holds_in, pro_of, con_of, goes_on, cell_of, not_state, or_state};
ghost use Rattle.cells.specs.inside.Cells.{and_state, stepped, closed, Slid, atom_state};

use schedule::bit;
use std::marker::Model;

// The least price that is not told apart from greater ones. It stands for no tree as well, so a minimum
// needs no case for that.
pub const CUT_OFF: u32 = 4096;

// The least number of a cell that says its formula holds. The caller lends numbers of 16 bits, so a cell is
// one number that has both the verdict and the price.
const HELD_FROM: u16 = 8192;

// Where a loop along a row stands: the verdict, and the prices of trees of either verdict, or 4,096. The
// verdict is a bool, as a cell has it.
#[derive(Clone, Copy)]
pub struct State {
    pub holds: bool,
    pub pro: u32,
    pub con: u32,
}

impl Model for State {
    ghost use Rattle.std.specs.Prelude.{◌≤◌};
    ghost use Rattle.theory.specs.inside.Costs.{cut_off};
    ghost use Rattle.cells.specs.inside.Stands.{Stand};

    ghost Value = { Stand };

    ghost view = { λ x. record { holds = x.holds; pro = x.pro; con = x.con } };

    ghost inverse = { λ x. record { holds = x.holds; pro = x.pro; con = x.con } };

    ghost invariant = { λ x. (x.pro ≤ cut_off) × (x.con ≤ cut_off) };
}

// The kinds whose cells come from their parts' cells at the same position.
#[derive(Clone, Copy)]
pub enum Connective {
    Not,
    Or,
    And,
}

#[tactic(auto, unfolding(crate::specs::inside::Cells::holds_in))]
pub fn holds(cell: u16) -> bool
    ensures { result ≡ holds_in cell }
{
    HELD_FROM <= cell
}

// The price of a tree that says it holds, or 4,096; `con` is its mirror. Two names, since most readers of a
// cell know which of them they want. (The bound is for the sums of prices.)
#[tactic(auto, unfolding(crate::specs::inside::Cells::pro_of, crate::specs::inside::Cells::holds_in))]
pub fn pro(cell: u16) -> u32
    ensures { (result ≡ pro_of cell) × (result ≤ 65535) }
{
    if holds(cell) {
        u32::from(cell - HELD_FROM)
    } else {
        CUT_OFF
    }
}

#[tactic(auto, unfolding(crate::specs::inside::Cells::con_of, crate::specs::inside::Cells::holds_in))]
pub fn con(cell: u16) -> u32
    ensures { (result ≡ con_of cell) × (result ≤ 65535) }
{
    if holds(cell) { CUT_OFF } else { cell.into() }
}

impl State {
    // A negation, a disjunction and a conjunction, from the cells of their parts at the same position.
    #[tactic(auto, unfolding(crate::specs::inside::Cells::not_state))]
    pub fn not(a: u16) -> State
        ensures { result ≡ not_state a }
    {
        State {
            holds: !holds(a),
            pro: (1 + con(a)).min(CUT_OFF),
            con: (1 + pro(a)).min(CUT_OFF),
        }
    }

    #[tactic(auto, unfolding(crate::specs::inside::Cells::or_state))]
    pub fn or(a: u16, b: u16) -> State
        ensures { result ≡ or_state a b }
    {
        State {
            holds: holds(a) || holds(b),
            pro: (1 + pro(a)).min(1 + pro(b)).min(CUT_OFF),
            con: (1 + con(a) + con(b)).min(CUT_OFF),
        }
    }

    // The mirror of `or`. One function for both would take which price is which, and say less.
    #[tactic(auto, unfolding(crate::specs::inside::Cells::and_state))]
    pub fn and(a: u16, b: u16) -> State
        ensures { result ≡ and_state a b }
    {
        State {
            holds: holds(a) && holds(b),
            pro: (1 + pro(a) + pro(b)).min(CUT_OFF),
            con: (1 + con(a)).min(1 + con(b)).min(CUT_OFF),
        }
    }

    // The next state along a since or an until: a witness here, or the one before with a member more. (What
    // does not wait for the state before is cut first.)
    #[tactic(auto, unfolding(crate::specs::inside::Cells::stepped))]
    pub fn step(self, left: u16, right: u16) -> State
        ensures { result ≡ stepped self left right }
    {
        State {
            holds: goes_on(self.holds, left, right),
            pro: (1 + pro(right)).min(CUT_OFF).min(self.pro + pro(left)),
            con: (1 + con(left) + con(right))
                .min(CUT_OFF)
                .min(self.con + con(right)),
        }
    }

    // The number of a cell. (No From: that a number is a cell is not said by its type.)
    #[tactic(auto, unfolding(crate::specs::inside::Cells::cell_of))]
    pub fn cell(self) -> u16
        ensures { result ≡ cell_of self }
    {
        if self.holds {
            HELD_FROM + self.pro as u16
        } else {
            self.con as u16
        }
    }

    // What is stored: rule 16 beside the state, which is carried on without it.
    #[tactic(auto, unfolding(crate::specs::inside::Cells::closed))]
    pub fn stored(self, sum: u32) -> u16
        requires { sum ≤ 33619455 }
        ensures { result ≡ cell_of (closed self sum) }
    {
        State {
            holds: self.holds,
            pro: self.pro,
            con: self.con.min(1 + sum).min(CUT_OFF),
        }
        .cell()
    }
}

// A witness here, or one before and the left part here.
#[tactic(auto, unfolding(crate::specs::inside::Cells::goes_on))]
fn goes_on(before: bool, left: u16, right: u16) -> bool
    ensures { result ≡ goes_on before left right }
{
    holds(right) || holds(left) && before
}

// The sum with one member more, and without the last where the right side repeats. (A flag, since both
// stretches of the loop share all else.)
pub fn slid(sum: u32, come: u16, gone: u16, repeats: bool) -> u32
    requires { (sum ≤ 33553920) × (repeats ≡ true → con_of gone ≤ sum + con_of come) }
    ensures slid { Slid sum (con_of come) (con_of gone) repeats result }
    ensures upper_bound { result ≤ sum + 65535 }
{
    if repeats {
        return sum + con(come) - con(gone);
    }
    sum + con(come)
}

// The cell of an atom, from its letter: a tree of one node.
#[tactic(auto, unfolding(crate::specs::inside::Cells::atom_state, crate::specs::inside::Cells::cell_of))]
pub fn atom_cell(word: u32, atom: usize) -> u16
    ensures { result ≡ cell_of (atom_state (word / 2 ^ atom % 2)) }
{
    if bit(word, atom) == 1 {
        return HELD_FROM + 1;
    }
    1
}
