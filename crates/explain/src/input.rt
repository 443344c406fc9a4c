// Standard input, read to its end or until the buffer is full.
ghost use Rattle.std.specs.Prelude.{◌<◌, ◌≤◌, length, take, OnOk};
ghost use Rattle.std.specs.Io.KnownBytes.{Consumes, IsAtEnd};

use std::io;
use std::io::{ErrorKind, Read};

// How many bytes came, and whether reading them went well to its end. What came before an error is wanted
// too, so the length stands beside the result and not in it.
#[derive(Drop)]
pub struct Input {
    pub len: usize,
    pub end: io::Result<()>,
}

// The bytes that came are the next of the input, in whatever pieces it gives them. A read that a signal cuts
// short is made again; another one that fails is where the input ends. (The count only bounds the loop.)
pub fn read_all<R: Read>(input: &mut R, text: &mut [u8]) -> Input
    ensures within { result.len ≤ length text.new }
    ensures bytes { OnOk result.end (Consumes (R.remaining input.old) (R.remaining input.new)
        (take result.len text.new)) }
    ensures whole { OnOk result.end (result.len < length text.new → IsAtEnd (R.remaining input.new)) }
{
    let mut len = 0;
    for _ in 0..u64::MAX {
        if len == text.len() {
            return Input { len, end: Ok(()) };
        }
        match input.read(&mut text[len..]) {
            Ok(0) => return Input { len, end: Ok(()) },
            Ok(n) => len += n,
            Err(error) => {
                if error.kind() != ErrorKind::Interrupted {
                    return Input {
                        len,
                        end: Err(error),
                    };
                }
            }
        }
    }
    Input {
        len,
        end: Err(io::Error::from(ErrorKind::Interrupted)),
    }
}
