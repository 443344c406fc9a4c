// The output of the text program: an answer and its tree as lines of text, in the caller's bytes.
#![tactic(auto)]

ghost use Rattle.std.specs.Prelude.{◌+◌, ◌*◌, ◌≤◌, ◌<◌, length, take};
ghost use Rattle.trees.specs.Verdicts.{sign_of};
ghost use Rattle.asking.specs.Answers.{figures_of};
ghost use Rattle.schedule.specs.Limits.{max_words};
ghost use Rattle.rendering.specs.Texts.{NodeLine, NodeLines, VerdictLine, Rendered, WrongText};
ghost use Rattle.rendering.specs.Texts.{LongText};
ghost use Rattle.printing.specs.Placed.{Placed};
ghost use Rattle.printing.specs.inside.Puts.{Puts};

use asking::Outcome;
use decimals::{COMMA, NEWLINE};
use printing::Writer;
use trees::Verdict;

// The bytes lent for a text: 4,095 lines of at most 19 bytes, the two lines before them, and room for any
// number of 32 bits behind each place.
pub const MAX_OUTPUT: usize = 77845;

const REFUSED: &[u8] = b"refused=";

// Writes the line of a tree's word. (Divided here: a `Node` has fields of usize, which would be cast back to
// 32 bits.)
fn node_line(output: &mut Writer<'_>, word: u32)
    requires { output.old.at + 24 ≤ length output.old.bytes.now }
    ensures line { Puts (NodeLine word) output.old output.new }
    ensures short { output.new.at ≤ output.old.at + 19 }
{
    output.text(b"node=");
    output.field(word / 16777216, COMMA);
    output.field(word / 65536 % 256, COMMA);
    output.field(word % 65536, NEWLINE);
}

// Writes the lines of a tree's words.
fn node_lines(output: &mut Writer<'_>, tree: &[u32])
    requires { output.old.at + length tree.now * 19 + 5 ≤ length output.old.bytes.now }
    ensures { Puts (NodeLines tree.now) output.old output.new }
{
    for word in tree {
        node_line(output, *word);
    }
}

// Writes the line of a verdict.
fn verdict_line(output: &mut Writer<'_>, verdict: Verdict)
    requires { output.old.at + 17 ≤ length output.old.bytes.now }
    ensures line { Puts (VerdictLine (sign_of verdict)) output.old output.new }
    ensures short { output.new.at ≤ output.old.at + 17 }
{
    output.text(b"verdict=");
    match verdict {
        Verdict::Holds => output.text(b"holds\n"),
        Verdict::Violated => output.text(b"violated\n"),
    }
}

// Writes the text of an answer and its tree to the front; answers its length.
pub fn rendered(out: &mut [u8; MAX_OUTPUT], outcome: Outcome, tree: &[u32]) -> usize
    requires { ((figures_of outcome).size ≤ max_words) × ((figures_of outcome).size ≤ length tree.now) }
    ensures { Placed
        (Rendered (figures_of outcome) (take (figures_of outcome).size tree.now)) 0
        out.old out.new result }
{
    let mut output = Writer::at_front(out);
    match outcome {
        Err(refusal) => output.number_line(REFUSED, u32::from(refusal)),
        Ok(judged) => {
            verdict_line(&mut output, judged.verdict);
            output.number_line(b"size=", judged.size);
            node_lines(&mut output, &tree[..judged.size as usize]);
        }
    }
    output.at
}

// Writes the text of refusal 13 to the front; answers its length. (13 and 14 are earned by texts alone, so
// they are no case of `Refusal`.)
pub fn wrong_text(out: &mut [u8; MAX_OUTPUT], line: usize) -> usize
    requires { line < 4294967296 }
    ensures { Placed (WrongText line) 0 out.old out.new result }
{
    let mut output = Writer::at_front(out);
    output.number_line(REFUSED, 13);
    output.number_line(b"line=", line as u32);
    output.at
}

// Writes the text of refusal 14 to the front; answers its length.
pub fn long_text(out: &mut [u8; MAX_OUTPUT]) -> usize
    ensures { Placed LongText 0 out.old out.new result }
{
    let mut output = Writer::at_front(out);
    output.number_line(REFUSED, 14);
    output.at
}
