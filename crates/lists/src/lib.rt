// Lists of numbers in a text: a keyword, numbers with commas, a newline. What reads a line is inlined: a text
// is read line by line, and each line has its own keyword and maximum.
#![tactic(auto)]

ghost use Rattle.std.specs.Prelude.{◌≡◌, set};
ghost use Rattle.lists.specs.Lines.{Commas, Letters};
ghost use Rattle.lists.specs.inside.Lists.{Worded, Lists};

use decimals::{COMMA, NEWLINE, number};

// How many numbers or lines stand together, and the rest of the text behind them.
#[derive(Clone, Copy)]
pub struct Listing<'a> {
    pub count: usize,
    pub rest: &'a [u8],
}

// Keeps a number, if the buffer has the place.
// (By an index: behind a loan by get_mut a proof knows a slice's length and no element.)
pub fn store(keep: &mut [u32], at: usize, n: u32)
    ensures { keep.new ≡ set keep.old at n }
{
    if at < keep.len() {
        keep[at] = n;
    }
}

// Numbers with commas, up to the end of the line.
// (The count is half of the answer: numbers past the buffer's end are counted too.)
#[inline(always)]
fn commas<'a>(text: &'a [u8], max: u32, keep: &mut [u32]) -> Option<Listing<'a>>
    ensures { Lists (Commas max) text.now keep.old keep.new result }
{
    let mut left = text;
    let mut count = 0;
    loop {
        let numeral = number(left, max)?;
        let end = *left.get(numeral.next)?;
        store(keep, count, numeral.value);
        count += 1;
        let rest = &left[numeral.next + 1..];
        match end {
            NEWLINE => return Some(Listing { count, rest }),
            COMMA => left = rest,
            _ => return None,
        }
    }
}

// A line of a keyword and numbers.
#[inline(always)]
pub fn fields<'a>(text: &'a [u8], word: &[u8], max: u32, keep: &mut [u32]) -> Option<Listing<'a>>
    ensures { Lists (Worded word.now (Commas max)) text.now
        keep.old keep.new result }
{
    commas(text.strip_prefix(word)?, max, keep)
}

// A line of a keyword and letters, perhaps none.
#[inline(always)]
pub fn letters<'a>(text: &'a [u8], word: &[u8], keep: &mut [u32]) -> Option<Listing<'a>>
    ensures { Lists (Worded word.now Letters) text.now keep.old
        keep.new result }
{
    let listed = text.strip_prefix(word)?;
    if let Some(rest) = listed.strip_prefix(&[NEWLINE]) {
        return Some(Listing { count: 0, rest });
    }
    commas(listed, u32::MAX, keep)
}
