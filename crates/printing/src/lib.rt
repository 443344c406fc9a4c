// Bytes of an output: a number, a label, a line with one number, each behind the one before.
#![tactic(auto)]

ghost use Rattle.std.specs.Prelude.{◌≡◌, ◌+◌, ◌≤◌, ◌<◌, length, [], ◌∷◌};
ghost use Rattle.decimals.specs.Decimals.{Decimal};
ghost use Rattle.printing.specs.Fields.{Field, NumberLine};
ghost use Rattle.printing.specs.Placed.{Placed};
ghost use Rattle.printing.specs.inside.Puts.{Puts};

use decimals::NEWLINE;

// Lent bytes, and the place up to which they are written. How much room a method needs is a number of its
// own, so it is a clause.
#[derive(Drop)]
pub struct Writer<'a> {
    pub bytes: &'a mut [u8],
    pub at: usize,
}

impl<'a> Writer<'a> {
    // Begins at the front of the lent bytes.
    pub fn at_front(bytes: &'a mut [u8]) -> Writer<'a>
        ensures same { result.bytes.ghost_name ≡ bytes.entry.ghost_name }
        ensures bytes { result.bytes.now ≡ bytes.old }
        ensures at { result.at ≡ 0 }
    {
        Writer { bytes, at: 0 }
    }

    // Writes a byte.
    fn byte(&mut self, byte: u8)
        requires { self.old.at < length self.old.bytes.now }
        ensures { Puts (λ bs. bs ≡ byte ∷ []) self.old self.new }
    {
        self.bytes[self.at] = byte;
        self.at += 1;
    }

    // Writes a text.
    pub fn text(&mut self, text: &[u8])
        requires { self.old.at + length text.now ≤ length self.old.bytes.now }
        ensures { Puts (λ bs. bs ≡ text.now) self.old self.new }
    {
        let end = self.at + text.len();
        self.bytes[self.at..end].copy_from_slice(text);
        self.at = end;
    }

    // Writes a number's digits.
    fn decimal(&mut self, n: u32)
        requires { self.old.at + 10 ≤ length self.old.bytes.now }
        ensures { Puts (λ ds. Decimal ds n) self.old self.new }
    {
        self.at = digits(self.bytes, self.at, n);
    }

    // Writes a number and the byte that ends it.
    pub fn field(&mut self, n: u32, end: u8)
        requires { self.old.at + 11 ≤ length self.old.bytes.now }
        ensures { Puts (Field n end) self.old self.new }
    {
        self.decimal(n);
        self.byte(end);
    }

    // Writes a line with one number.
    pub fn number_line(&mut self, label: &[u8], n: u32)
        requires { self.old.at + length label.now + 11 ≤ length self.old.bytes.now }
        ensures { Puts (NumberLine label.now n) self.old self.new }
    {
        self.text(label);
        self.field(n, NEWLINE);
    }
}

// Writes a number's digits from a place on; answers the place behind them. It calls itself for the digits
// before the last. (On bytes and a place, since a method that calls itself goes through the writer at each
// digit. By hand: `write!` may answer an error, and its contract does not say where it answers none.)
fn digits(bytes: &mut [u8], at: usize, n: u32) -> usize
    requires { at + 10 ≤ length bytes.old }
    ensures { Placed (λ ds. Decimal ds n) at bytes.old bytes.new result }
{
    if n < 10 {
        bytes[at] = b'0' + n as u8;
        return at + 1;
    }
    let next = digits(bytes, at, n / 10);
    bytes[next] = b'0' + (n % 10) as u8;
    next + 1
}
