// The text program as a function on bytes: the text of a question in, the text of its answer out.
#![tactic(auto)]

ghost use Rattle.explain_text.specs.Explained.{Explained};

use asking::LentQuestion;
use questions::{KEPT_ENTRIES, KEPT_LETTERS, read_text};
use rendering::MAX_OUTPUT;
use schedule::{LentLetters, MAX_WORDS, WORK_LENGTH};
use wording::write;

pub const MAX_TEXT: usize = 8192;

// The output for a text of any bytes: how many bytes of it stand in the buffer. (Buffers and a length, as the
// call from C lends and wants them.)
pub fn explain(
    text: &[u8],
    work: &mut [u16; WORK_LENGTH],
    tree: &mut [u32; MAX_WORDS],
    out: &mut [u8; MAX_OUTPUT],
) -> usize
    ensures { Explained text.now work.old work.new tree.old
        tree.new out.old out.new result }
{
    if MAX_TEXT < text.len() {
        return rendering::long_text(out);
    }
    let mut prefix = [0u32; KEPT_LETTERS];
    let mut looped = [0u32; KEPT_LETTERS];
    let mut table = [0u32; KEPT_ENTRIES];
    match read_text(text, &mut prefix, &mut looped, &mut table) {
        Err(bad) => rendering::wrong_text(out, bad.line),
        Ok(said) => {
            let letters = LentLetters {
                prefix: &prefix[..said.prefix.min(KEPT_LETTERS)],
                looped: &looped[..said.looped.min(KEPT_LETTERS)],
            };
            let question = LentQuestion {
                letters,
                table: &table[..said.entries.min(KEPT_ENTRIES)],
                entry: said.entry,
                position: said.position,
            };
            let outcome = write(question, work, tree);
            rendering::rendered(out, outcome, tree)
        }
    }
}
