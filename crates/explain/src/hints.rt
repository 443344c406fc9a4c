// What is wrong in the first wrong line of a text, in words. The lines before it are right.
ghost use Rattle.std.specs.Prelude.{◌≤◌, length};

use decimals::{COMMA, NEWLINE, number};
use std::fmt;

// Says what is wrong in a line; lines are counted from 1. What cannot be written is lost: there is nowhere
// else to say so.
pub fn hint(rt: &impl Eprint, text: &[u8], line: usize) {
    let fault = fault_in(text, line);
    let _ = eprintln!(rt; "explain: line {line}{fault}");
}

// What is wrong in a line.
#[derive(Clone, Copy)]
enum Fault {
    BehindAsk,
    Missing {
        keyword: &'static str,
    },
    CarriageReturn,
    Keyword {
        keyword: &'static str,
        first: Option<u8>,
    },
    Byte {
        byte: u8,
        place: usize,
        max: u32,
    },
    LastComma,
    Count {
        wanted: usize,
        found: usize,
    },
    Newline,
}

impl fmt::Display for Fault {
    fn fmt<W: fmt::Write>(&self, f: &mut fmt::Formatter<W>) -> fmt::Result {
        match *self {
            Fault::BehindAsk => write!(f, ": nothing may stand behind the line of ask"),
            Fault::Missing { keyword } => write!(f, " is missing: it begins with {keyword}"),
            Fault::CarriageReturn => write!(f, " ends in CR: lines end with a newline alone"),
            Fault::Keyword { keyword, first } => {
                write!(f, " should begin with {keyword}")?;
                match first {
                    Some(b'a'..=b'z') => Ok(()), // seen at a glance
                    Some(byte) => write!(f, ", and begins with {}", Byte(byte)),
                    None => write!(f, ", and is empty"),
                }
            }
            Fault::Byte { byte, place, max } => {
                write!(f, ", byte {place}: ")?;
                match byte {
                    COMMA => write!(f, "a number is missing before the comma"),
                    b'0' => write!(f, "a number has no leading zero"),
                    b'1'..=b'9' => write!(f, "the number is larger than {max}"),
                    _ => write!(f, "{} is neither a digit nor a comma", Byte(byte)),
                }
            }
            Fault::LastComma => write!(f, " ends in a comma: a number is missing behind it"),
            Fault::Count { wanted, found } => write!(
                f,
                " should have {wanted} numbers, and has {found}"
            ),
            Fault::Newline => write!(f, " is not ended by a newline"),
        }
    }
}

// A byte as it is printed, or its number.
#[derive(Clone, Copy)]
struct Byte(u8);

impl fmt::Display for Byte {
    fn fmt<W: fmt::Write>(&self, f: &mut fmt::Formatter<W>) -> fmt::Result {
        let byte = self.0;
        match byte {
            b' '..=b'~' => write!(f, "'{}'", char::from(byte)),
            _ => write!(f, "byte {byte}"),
        }
    }
}

fn fault_in(text: &[u8], line: usize) -> Fault {
    // of right lines the question alone begins with an a
    let before = line_of(text, line.saturating_sub(1));
    if before.is_some_and(|bytes| bytes.starts_with(b"a")) {
        return Fault::BehindAsk;
    }
    let Some(whole) = line_of(text, line) else {
        return Fault::Missing {
            keyword: keyword(line),
        };
    };
    let bytes = whole.strip_suffix(&[NEWLINE]).unwrap_or(whole);
    if bytes.ends_with(b"\r") {
        return Fault::CarriageReturn;
    }
    match Fields::of(bytes, line) {
        Some(fields) => fields.fault(),
        None => Fault::Keyword {
            keyword: keyword(line),
            first: bytes.first().copied(),
        },
    }
}

// A line with its newline; none if the text ends before it.
fn line_of(text: &[u8], line: usize) -> Option<&[u8]> {
    let before = line.checked_sub(1)?;
    text.split_inclusive(|byte| *byte == NEWLINE).nth(before)
}

// What the line of a number begins with. (A line's number is its kind: 1, 2, and all behind.)
fn keyword(line: usize) -> &'static str {
    match line {
        1 => "prefix=",
        2 => "loop=",
        _ => "entry= or ask=",
    }
}

// What a line has behind its keyword: numbers, how many if that is fixed, and how large they may be.
#[derive(Clone, Copy)]
struct Fields<'a> {
    bytes: &'a [u8],
    numbers: &'a [u8],
    count: Option<usize>,
    max: u32,
    ghost inside: { length numbers.now ≤ length bytes.now },
}

impl<'a> Fields<'a> {
    // Those of the line of a number, which is its kind, if it has a keyword of its own.
    fn of(bytes: &'a [u8], line: usize) -> Option<Fields<'a>> {
        match line {
            1 => Fields::behind(bytes, b"prefix=", None, u32::MAX),
            2 => Fields::behind(bytes, b"loop=", None, u32::MAX),
            _ => {
                let entry = Fields::behind(bytes, b"entry=", Some(3), 255);
                entry.or(Fields::behind(bytes, b"ask=", Some(2), 65535))
            }
        }
    }

    fn behind(
        bytes: &'a [u8],
        keyword: &[u8],
        count: Option<usize>,
        max: u32,
    ) -> Option<Fields<'a>> {
        Some(Fields {
            bytes,
            numbers: bytes.strip_prefix(keyword)?,
            count,
            max,
        })
    }

    // What is wrong: numbers with commas between them are passed as far as they are right, and counted.
    fn fault(self) -> Fault {
        let mut left = self.numbers;
        let mut found = 0;
        while let Some(numeral) = number(left, self.max) {
            found += 1;
            left = &left[numeral.next..];
            let Some(others) = left.strip_prefix(&[COMMA]) else {
                return self.fault_at(left).unwrap_or(self.fault_of(found));
            };
            left = others;
        }
        let ended = if found == 0 {
            self.fault_of(found)
        } else {
            Fault::LastComma
        };
        self.fault_at(left).unwrap_or(ended)
    }

    // What is wrong with the first of the bytes that are left, if any are.
    fn fault_at(self, left: &[u8]) -> Option<Fault>
        requires { length left.now ≤ length self.bytes.now }
    {
        Some(Fault::Byte {
            byte: *left.first()?,
            place: self.bytes.len() - left.len() + 1,
            max: self.max,
        })
    }

    // What is wrong where the numbers are right: how many were found, or that nothing ends the line.
    fn fault_of(self, found: usize) -> Fault {
        match self.count {
            Some(wanted) if wanted != found => Fault::Count { wanted, found },
            _ => Fault::Newline,
        }
    }
}
