// The call from C that reads a text into lists: the text of a question in, its letters, entries and what it
// asks out.
#![tactic(auto)]

ghost use Rattle.reading.specs.Reads.{Reads};

use questions::{KEPT_ENTRIES, KEPT_LETTERS};
use reading::TextAnswer;

#[unsafe(no_mangle)]
pub extern "C" fn chickvessel_read_text(
    text: &[u8],
    prefix: &mut [u32; KEPT_LETTERS],
    looped: &mut [u32; KEPT_LETTERS],
    table: &mut [u32; KEPT_ENTRIES],
) -> TextAnswer
    ensures { Reads text.now prefix.old prefix.new
        looped.old looped.new table.old table.new result }
{
    reading::read(text, prefix, looped, table)
}
