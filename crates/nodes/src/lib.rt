// The test of one node: its form, then kind, sign, count, position and letter.
#![tactic(auto)]

ghost use Rattle.std.specs.Prelude.{◌≡◌, ◌^◌, ◌≤◌, ◌<◌, length};
ghost use Rattle.schedule.specs.Limits.{max_letters, max_entries};
ghost use Rattle.rules.specs.Tables.{entry_at, formula_of};
ghost use Rattle.trees.specs.Nodes.{node_of};
ghost use Rattle.trees.specs.Rules.{claim};
ghost use Rattle.trees.specs.inside.Table.{kind_number};
ghost use Rattle.trees.specs.inside.Lent.{frame_of};
ghost use Rattle.nodes.specs.inside.Fits.{kind_of, left_of, right_of, fits_of, atom_agrees, count_fits};
ghost use Rattle.nodes.specs.inside.Fits.{window_at, Counts};
ghost use Rattle.nodes.specs.inside.Tested.{Within, Tested};

use forms::{Form, form_of};
use rules::{Binary, Entry, Side};
use schedule::{LentLetters, bit};
use trees::{Kind, Verdict, formula_kind, sign};

// A part of a node: its entry and its position.
#[derive(Clone, Copy)]
pub struct Part {
    pub entry: usize,
    pub position: usize,
}

// What a node's parts have to prove, all of one verdict: a fixed part or none, and then the members of a list
// at rising positions. `fixed` is the table's number of parts before the list: places in it are counted from
// that number, so it is no Option.
#[derive(Clone, Copy)]
pub struct Demands {
    pub fixed: usize,
    pub first: Part,
    pub member: usize,
    pub from: usize,
    pub count: usize,
    pub verdict: Verdict,
}

// The kind of an entry. (A function: Entry and Kind are of two other crates.)
fn kind_of(here: Entry) -> Kind
    ensures { kind_number result ≡ kind_of here }
{
    match here {
        Entry::Atom(_) | Entry::Broken => Kind::Atom,
        Entry::One(_, _) => Kind::Not,
        Entry::Two(Binary::Or, _, _) => Kind::Or,
        Entry::Two(Binary::And, _, _) => Kind::And,
        Entry::Two(Binary::Since, _, _) => Kind::Since,
        Entry::Two(Binary::Until, _, _) => Kind::Until,
    }
}

// The left part of an entry, an atom's number, or 0 where there is neither; likewise the right one.
// (Numbers, not Options, as the definitions have them: where there is no such part, none is counted.)
pub fn left_of(here: Entry) -> usize
    ensures { result ≡ left_of here }
{
    match here {
        Entry::Atom(left) | Entry::One(_, left) | Entry::Two(_, left, _) => left,
        Entry::Broken => 0,
    }
}

pub fn right_of(here: Entry) -> usize
    ensures { result ≡ right_of here }
{
    match here {
        Entry::Two(_, _, right) => right,
        Entry::Atom(_) | Entry::One(_, _) | Entry::Broken => 0,
    }
}

// Kind, then sign. A rule stays its number here, since the table of the rules is read at it.
#[tactic(auto, unfolding(crate::specs::inside::Fits::fits_of))]
fn suits(rule: usize, here: Entry, needed: Verdict) -> bool
    requires { (1 ≤ rule) × (rule ≤ 16) }
    ensures { result ≡ fits_of rule here needed }
{
    formula_kind(rule) == kind_of(here) && sign(rule) == needed
}

// Rules 1 and 2, past kind and sign: the atom's number, position, letter.
#[tactic(auto, unfolding(crate::specs::inside::Fits::atom_agrees))]
fn atom_agrees(
    letter: u32,
    named: usize,
    position: usize,
    needed: Verdict,
    atom: usize,
    number: usize,
) -> bool
    ensures { result ≡ atom_agrees letter named position needed atom number }
{
    atom == named && number == position && (bit(letter, atom) == 1) == (needed == Verdict::Holds)
}

// The count of rule 16: the past height of the right part is worked out for such a node alone. (The limits
// are clauses, and no invariant of the letters: the view has none.)
#[tactic(auto, using(crate::proofs::Windows::lap_product))]
fn window(letters: LentLetters<'_>, table: &[u32], right: usize, position: usize) -> usize
    requires { (length letters.prefix.now ≤ max_letters) × (length letters.looped.now ≤ max_letters)
        × (right < max_entries) × (position < 2 ^ 40) }
    ensures { result ≡ window_at letters.entry.prefix.now letters.entry.looped.now table.now right position }
{
    let lap = letters.looped.len();
    let start = letters.prefix.len() + lap * heights::height(table, right, Side::Past);
    position.max(start) + lap - position
}

// Rules 11 to 16: whether the count is allowed at the position. (Its limits are one named fact, `Counts`: a
// value of a type would be made for each node.)
#[tactic(auto, unfolding(crate::specs::inside::Fits::count_fits))]
fn count_fits(
    letters: LentLetters<'_>,
    table: &[u32],
    right: usize,
    position: usize,
    rule: usize,
    count: usize,
) -> bool
    requires { Counts (length letters.prefix.now) (length letters.looped.now) right position rule count }
    ensures { result ≡ count_fits rule position count
        (window_at letters.entry.prefix.now letters.entry.looped.now table.now right position) }
{
    match rule {
        11 => count <= position,
        12 => (1..=position + 1).contains(&count),
        13 => count == position + 1,
        14 => true,
        15 => 1 <= count,
        _ => count == window(letters, table, right, position),
    }
}

// The test of one node: on its word, its entry, its position and the needed verdict; it sees no other word.
// (The entry comes decoded, so that it is read once a node; a clause says which it is.)
pub fn node_fits(
    letters: LentLetters<'_>,
    table: &[u32],
    here: Entry,
    entry: usize,
    position: usize,
    needed: Verdict,
    word: u32,
) -> bool
    requires { Within (length letters.prefix.now) (length letters.looped.now) entry position
        × (here ≡ entry_at table.now entry) }
    ensures { Tested (frame_of letters.entry)
        (claim (formula_of table.now entry) position needed) (node_of word) result }
{
    let Some(form) = form_of(word) else {
        return false;
    };
    // (Each form has a rule of its own, so kind and sign are asked in each.)
    match form {
        Form::Atom {
            rule,
            atom,
            position: number,
        } => {
            suits(rule, here, needed)
                && atom_agrees(
                    letters.letter(position),
                    left_of(here),
                    position,
                    needed,
                    atom,
                    number,
                )
        }
        Form::Plain { rule } => suits(rule, here, needed),
        Form::Counted { rule, count } => {
            suits(rule, here, needed)
                && count_fits(letters, table, right_of(here), position, rule, count)
        }
    }
}
