// The call from C for texts: the text of a question in, the text of its answer out.
#![tactic(auto)]

ghost use Rattle.explain_text.specs.Explained.{Explained};

use rendering::MAX_OUTPUT;
use schedule::{MAX_WORDS, WORK_LENGTH};

#[unsafe(no_mangle)]
pub extern "C" fn chickvessel_explain(
    text: &[u8],
    work: &mut [u16; WORK_LENGTH],
    tree: &mut [u32; MAX_WORDS],
    out: &mut [u8; MAX_OUTPUT],
) -> usize
    ensures { Explained text.now work.old work.new tree.old
        tree.new out.old out.new result }
{
    explain_text::explain(text, work, tree, out)
}
