// Decimal numbers in a text of bytes.
#![tactic(auto)]

ghost use Rattle.decimals.specs.inside.Numbers.{Figure, Numbered};

// The byte between numbers, and the byte that ends a line.
pub const COMMA: u8 = b',';

pub const NEWLINE: u8 = b'\n';

// A number that stands in a text, and the place behind it. (A place and not the rest of the text, since
// `Numbered` speaks of places.)
#[derive(Clone, Copy)]
pub struct Numeral {
    pub value: u32,
    pub next: usize,
}

// The figure that a byte stands for, if it is a digit. (Inlined, as what calls it.)
#[inline(always)]
fn figure(byte: u8) -> Option<u32>
    ensures { Figure byte result }
{
    match byte {
        b'0'..=b'9' => Some(u32::from(byte - b'0')),
        _ => None,
    }
}

// The number that stands at a text's beginning, up to the first byte that is no digit, if it is at most max.
// (What does not fit its 32 bits is above max. By hand, since `parse` takes a sign and leading zeros, and
// does not say where a number ends. Inlined, so that each caller has its own maximum in it.)
#[inline(always)]
pub fn number(text: &[u8], max: u32) -> Option<Numeral>
    ensures { Numbered text.now 0 max result }
{
    let (first, others) = text.split_first()?;
    let mut value = figure(*first)?;
    if max < value {
        return None;
    }
    for (k, byte) in others.iter().enumerate() {
        let Some(digit) = figure(*byte) else {
            return Some(Numeral { value, next: 1 + k });
        };
        if value == 0 {
            return None; // a leading zero
        }
        value = value.checked_mul(10)?.checked_add(digit)?;
        if max < value {
            return None;
        }
    }
    Some(Numeral {
        value,
        next: text.len(),
    })
}
