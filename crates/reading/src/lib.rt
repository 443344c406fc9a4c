// The reader of texts: the first wrong line, or the lists, the table and what is asked.
#![tactic(auto)]

ghost use Rattle.reading.specs.Reads.{Reads};

use explain_text::MAX_TEXT;
use questions::{KEPT_ENTRIES, KEPT_LETTERS, read_text};

// What a text says: how many letters and entries stand in the buffers, and what is asked; or why it is
// refused, and then all else is 0. It crosses to C, so a refusal is a number there and lengths stand beside
// the lists.
#[repr(C)]
#[derive(Clone, Copy)]
pub struct TextAnswer {
    pub number: u32,
    pub line: u32,
    pub prefix: usize,
    pub looped: usize,
    pub entries: usize,
    pub entry: usize,
    pub position: usize,
}

// The answer that says nothing.
const NOTHING: TextAnswer = TextAnswer {
    number: 0,
    line: 0,
    prefix: 0,
    looped: 0,
    entries: 0,
    entry: 0,
    position: 0,
};

// Reads a text of any bytes. The lists are read apart and copied when all of the text is right, so that a
// text that is refused leaves the buffers as found. (13 and 14 are earned by texts alone, so they are no case
// of `Refusal`. `explain` begins alike, and the two share `read_text`: what they do then differs.)
pub fn read(
    text: &[u8],
    prefix: &mut [u32; KEPT_LETTERS],
    looped: &mut [u32; KEPT_LETTERS],
    table: &mut [u32; KEPT_ENTRIES],
) -> TextAnswer
    ensures { Reads text.now prefix.old prefix.new
        looped.old looped.new table.old table.new result }
{
    if MAX_TEXT < text.len() {
        return TextAnswer {
            number: 14,
            ..NOTHING
        };
    }
    let mut letters = [0u32; KEPT_LETTERS];
    let mut laps = [0u32; KEPT_LETTERS];
    let mut words = [0u32; KEPT_ENTRIES];
    match read_text(text, &mut letters, &mut laps, &mut words) {
        Err(bad) => TextAnswer {
            number: 13,
            line: bad.line as u32,
            ..NOTHING
        },
        Ok(said) => {
            let in_prefix = said.prefix.min(KEPT_LETTERS);
            let in_loop = said.looped.min(KEPT_LETTERS);
            let entries = said.entries.min(KEPT_ENTRIES);
            prefix[..in_prefix].copy_from_slice(&letters[..in_prefix]);
            looped[..in_loop].copy_from_slice(&laps[..in_loop]);
            table[..entries].copy_from_slice(&words[..entries]);
            TextAnswer {
                prefix: in_prefix,
                looped: in_loop,
                entries,
                entry: said.entry,
                position: said.position,
                ..NOTHING
            }
        }
    }
}
