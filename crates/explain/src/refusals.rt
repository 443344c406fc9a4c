// The refusals in words.
use crate::hints::hint;
use asking::{NoRefusal, Refusal};
use decimals::number;
use explain_text::MAX_TEXT;

// The refusal of a text that is too long, which no question earns.
const LONG_TEXT: u32 = 14;

// Says in words why a text was refused, if its output says that it was.
pub fn say_refusal(rt: &impl Eprint, text: &[u8], out: &[u8]) {
    let Some((refusal, others)) = number_behind(out, b"refused=") else {
        return;
    };
    match number_behind(others, b"\nline=") {
        Some((line, _)) => hint(rt, text, line as usize),
        None => say_words(rt, refusal),
    }
}

// The number behind what an output begins with, and the bytes behind it.
fn number_behind<'a>(out: &'a [u8], label: &[u8]) -> Option<(u32, &'a [u8])> {
    let digits = out.strip_prefix(label)?;
    let numeral = number(digits, u32::MAX)?;
    Some((numeral.value, &digits[numeral.next..]))
}

// What cannot be written on standard error is lost: there is nowhere else to say so.
fn say_words(rt: &impl Eprint, refusal: u32) {
    let _ = match Refusal::try_from(refusal) {
        Ok(refusal) => eprintln!(rt; "explain: refused: {refusal}"),
        Err(NoRefusal(LONG_TEXT)) => {
            eprintln!(rt; "explain: refused: the text is longer than {MAX_TEXT} bytes")
        }
        Err(_) => eprintln!(rt; "explain: refused: by a number that is not known here"),
    };
}
