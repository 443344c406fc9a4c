// Rule tables: what an entry says, whether all keep the kind table, and the record that a list is read into.
#![tactic(auto)]

ghost use Rattle.std.specs.Prelude.{◌≡◌, ◌≤◌, length, take};
ghost use Rattle.schedule.specs.Limits.{max_entries};
ghost use Rattle.rules.specs.Entries.{entry_of};
ghost use Rattle.rules.specs.Tables.{entry_at, keeps_all};

use schedule::Schedule;

// Atoms of a letter: its bits.
const ATOMS: usize = 32;

#[derive(Clone, Copy)]
pub enum Side {
    Past,
    Future,
}

// What a word of a table says at its place: an atom, or an operator and its parts. A broken word has a
// formula too (atom 0), which every reader of entries meets: so it is an entry, and not the lack of one.
#[derive(Clone, Copy)]
pub enum Entry {
    Atom(usize),
    One(Unary, usize),
    Two(Binary, usize, usize),
    Broken,
}

// The operators of one part: there is one.
#[derive(Clone, Copy)]
pub enum Unary {
    Not,
}

// The operators of two parts.
#[derive(Clone, Copy)]
pub enum Binary {
    Or,
    And,
    Since,
    Until,
}

// A table once read: its entries and their count. An array with a length, since nothing here allocates.
#[derive(Drop)]
pub struct Table {
    pub words: [u32; Schedule::MAX_ENTRIES],
    pub len: usize,
}

// The entry of a word at its index: the kind table, row by row. (A word is taken apart here alone, by
// casts, for usize has no From<u32>. It is no conversion, since what it says depends on its place.)
#[tactic(auto, unfolding(crate::specs::Entries::entry_of))]
pub fn entry_of(index: usize, word: u32) -> Entry
    ensures { result ≡ entry_of index word }
{
    let left = (word / 256 % 256) as usize;
    let right = (word % 256) as usize;
    let earlier = left < index && right < index;
    match word / 65536 {
        0 if left < ATOMS && right == 0 => Entry::Atom(left),
        1 if left < index && right == 0 => Entry::One(Unary::Not, left),
        2 if earlier => Entry::Two(Binary::Or, left, right),
        3 if earlier => Entry::Two(Binary::And, left, right),
        4 if earlier => Entry::Two(Binary::Since, left, right),
        5 if earlier => Entry::Two(Binary::Until, left, right),
        _ => Entry::Broken,
    }
}

// The entry at an index of a table; past its end the word 0 is read, as the definition says.
pub fn entry_at(table: &[u32], entry: usize) -> Entry
    ensures { result ≡ entry_at table.now entry }
{
    entry_of(entry, table.get(entry).copied().unwrap_or(0))
}

// Whether every entry of a list keeps the kind table, that is, whether none is broken.
pub fn all_keep(table: &[u32]) -> bool
    ensures { result ≡ keeps_all table.now }
{
    table.iter().enumerate().all(|(entry, word)| !matches!(entry_of(entry, *word), Entry::Broken))
}

impl Table {
    ghost use Rattle.rules.specs.inside.Records.{table_of};

    // A list of words read into the record. Whoever reads has tested that they have a place in it. (Each
    // reader has the record in its own frame: a function that read it for all could not hand the words back.)
    pub fn holding(list: &[u32]) -> Table
        requires { length list.now ≤ max_entries }
        ensures made { result ≡ table_of list.now }
        ensures read { take result.len result.words ≡ list.now }
    {
        let mut words = [0; Schedule::MAX_ENTRIES];
        words[..list.len()].copy_from_slice(list);
        Table {
            words,
            len: list.len(),
        }
    }

    // The words that were read. (Cut at the array's end: anyone can build a record with a longer count.)
    pub fn entries(&self) -> &[u32]
        ensures { result.now ≡ take self.now.len self.now.words }
    {
        &self.words[..self.len.min(Schedule::MAX_ENTRIES)]
    }
}
