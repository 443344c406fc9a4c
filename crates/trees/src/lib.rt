// The constant table of the sixteen rules, and the verdict that a word claims.
#![tactic(auto)]

ghost use Rattle.std.specs.Prelude.{◌≡◌, ◌/◌, ◌≤◌, ◌<◌};
ghost use Rattle.trees.specs.Nodes.{node_of};
ghost use Rattle.trees.specs.Verdicts.{rule_sign, sign_of, proven_by, claimed_by};
ghost use Rattle.trees.specs.inside.Table.{rule_kind, kind_number, rule_fixed};

use Kind::{And, Atom, Not, Or, Since, Until};
use Verdict::{Holds, Violated};

#[derive(Clone, Copy, PartialEq, Eq)]
pub enum Verdict {
    Holds,
    Violated,
}

// The kinds of formulas.
#[derive(Clone, Copy, PartialEq, Eq)]
pub enum Kind {
    Atom,
    Not,
    Or,
    And,
    Since,
    Until,
}

// The table of the sixteen rules, a place a rule: what it proves, its formula kind, and the number of its
// fixed parts. Constant arrays, read at a rule's number: so a rule is its number everywhere, and no enum.
const SIGNS: [Verdict; 16] = [
    Holds, Violated, Holds, Violated, Holds, Holds, Violated, Holds, Violated, Violated, Holds,
    Violated, Violated, Holds, Violated, Violated,
];

const KINDS: [Kind; 16] = [
    Atom, Atom, Not, Not, Or, Or, Or, And, And, And, Since, Since, Since, Until, Until, Until,
];

const FIXED: [u8; 16] = [0, 0, 1, 1, 1, 1, 2, 2, 1, 1, 1, 1, 0, 1, 1, 0];

// The figure of a verdict: 1 holds, 2 violated.
impl From<Verdict> for u32 {
    ghost from_gives = { λ verdict figure. figure ≡ sign_of verdict };

    fn from(verdict: Verdict) -> u32 {
        match verdict {
            Holds => 1,
            Violated => 2,
        }
    }
}

// The verdict whose sign a rule has.
pub fn sign(rule: usize) -> Verdict
    requires { (1 ≤ rule) × (rule ≤ 16) }
    ensures { sign_of result ≡ rule_sign rule }
{
    SIGNS[rule - 1]
}

pub fn formula_kind(rule: usize) -> Kind
    requires { (1 ≤ rule) × (rule ≤ 16) }
    ensures { kind_number result ≡ rule_kind rule }
{
    KINDS[rule - 1]
}

pub fn fixed(rule: usize) -> usize
    requires { (1 ≤ rule) × (rule ≤ 16) }
    ensures { result ≡ rule_fixed rule }
{
    usize::from(FIXED[rule - 1])
}

// The verdict that a rule proves. A number that is no rule is wrong for either verdict.
#[tactic(auto, using(crate::proofs::Verdicts::proven))]
pub fn proven(rule: usize) -> Verdict
    ensures { result ≡ proven_by rule }
{
    match rule {
        0 => Holds,
        1..=16 => sign(rule),
        _ => Violated,
    }
}

// A word of a tree, taken apart. (The fields are cast, for usize has no From<u32>.)
#[derive(Clone, Copy)]
pub struct Node {
    pub rule: usize,
    pub atom: usize,
    pub number: usize,
}

impl From<u32> for Node {
    ghost from_gives = { λ word node. node ≡ node_of word };

    fn from(word: u32) -> Node {
        Node {
            rule: (word / 16777216) as usize,
            atom: (word / 65536 % 256) as usize,
            number: (word % 65536) as usize,
        }
    }
}

// The verdict that the rule of a root's word claims.
pub fn claimed(word: u32) -> Verdict
    ensures { result ≡ claimed_by word }
{
    proven(Node::from(word).rule)
}
