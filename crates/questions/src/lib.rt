// The text of a question, read line by line: prefix, loop, entries, ask.
#![tactic(auto)]

ghost use Rattle.lists.specs.Lines.{Commas};
ghost use Rattle.lists.specs.inside.Lists.{Worded};
ghost use Rattle.questions.specs.inside.LinesRead.{FieldsRead, AllEntries};
ghost use Rattle.questions.specs.inside.Questions.{QuestionRead};

use lists::{Listing, fields, letters, store};

// Letters and entries that are kept of a text: one more than any question may have, so that too many still
// show.
pub const KEPT_LETTERS: usize = 49;

pub const KEPT_ENTRIES: usize = 33;

// What a text says: how many letters and entries it has, even those not kept, and what it asks.
#[derive(Clone, Copy)]
pub struct TextRead {
    pub prefix: usize,
    pub looped: usize,
    pub entries: usize,
    pub entry: usize,
    pub position: usize,
}

// The first wrong line of a text, counted from 1.
#[derive(Clone, Copy, Debug, PartialEq, Eq)]
pub struct BadLine {
    pub line: usize,
}

// N numbers of a line, and the rest of the text behind it.
#[derive(Clone, Copy)]
struct Fields<'a, const N: usize> {
    numbers: [u32; N],
    rest: &'a [u8],
}

// A line of a keyword and N numbers. (A function of its own, so that the loops over letters have the
// registers of read_text to themselves.)
#[inline(never)]
fn numbers<'a, const N: usize>(text: &'a [u8], word: &[u8], max: u32) -> Option<Fields<'a, N>>
    ensures { FieldsRead (Worded word.now (Commas max)) N text.now result }
{
    let mut numbers = [0; N];
    let Listing { count, rest } = fields(text, word, max, &mut numbers)?;
    if count != N {
        return None;
    }
    Some(Fields { numbers, rest })
}

// All lines of entries that a text begins with: their words are kept, as many as the table has room for.
// (The count is half of the answer: entries past the table's end are counted too.)
fn entry_lines<'a>(text: &'a [u8], table: &mut [u32]) -> Listing<'a>
    ensures { AllEntries text.now table.old table.new result.count result.rest.now }
{
    let mut rest = text;
    let mut count = 0;
    while let Some(line) = numbers::<3>(rest, b"entry=", 255) {
        let [kind, left, right] = line.numbers;
        store(table, count, kind * 65536 + left * 256 + right); // the one place that makes an entry's word
        count += 1;
        rest = line.rest;
    }
    Listing { count, rest }
}

// Reads the text of a question. Of each list of letters the first 49 are kept, of the entries the first 33,
// in three arrays, like those that the call from C lends. (Two numbers are cast, for usize has no From<u32>.)
pub fn read_text(
    text: &[u8],
    prefix: &mut [u32; KEPT_LETTERS],
    looped: &mut [u32; KEPT_LETTERS],
    table: &mut [u32; KEPT_ENTRIES],
) -> Result<TextRead, BadLine>
    ensures { QuestionRead text.now prefix.old prefix.new
        looped.old looped.new table.old table.new result }
{
    let first = letters(text, b"prefix=", prefix).ok_or(BadLine { line: 1 })?;
    let laps = letters(first.rest, b"loop=", looped).ok_or(BadLine { line: 2 })?;
    let entries = entry_lines(laps.rest, table);
    let asked = numbers::<2>(entries.rest, b"ask=", 65535).ok_or(BadLine {
        line: entries.count + 3,
    })?;
    let [entry, position] = asked.numbers;
    if !asked.rest.is_empty() {
        return Err(BadLine {
            line: entries.count + 4,
        });
    }
    Ok(TextRead {
        prefix: first.count,
        looped: laps.count,
        entries: entries.count,
        entry: entry as usize,
        position: position as usize,
    })
}
