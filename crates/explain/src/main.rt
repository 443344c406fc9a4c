// The text program: standard input to standard output. Standard error says in words what was refused, and
// what could not be read or written.
#![tactic(auto)]

mod hints;
mod input;
mod refusals;

use explain_text::MAX_TEXT;
use input::{Input, read_all};
use refusals::say_refusal;
use rendering::MAX_OUTPUT;
use schedule::{MAX_WORDS, WORK_LENGTH};
use std::io;
use std::io::{Lock, Write};
use std::process::ExitCode;

fn main(rt: HostRuntime) -> ExitCode {
    // one byte more than a text may have, so that a longer one shows
    let mut text = [0u8; MAX_TEXT + 1];
    let mut work = [0u16; WORK_LENGTH];
    let mut tree = [0u32; MAX_WORDS];
    let mut out = [0u8; MAX_OUTPUT];
    let Input { len, end } = read_all(&mut rt.stdin(), &mut text);
    let text = &text[..len];
    let len = explain_text::explain(text, &mut work, &mut tree, &mut out);
    let out = &out[..len];
    // no `?`: what failed is said first, and the answer is an exit status
    if let Err(error) = rt.stdout().lock().write_all(out) {
        return failed(&rt, "standard output", error);
    }
    // a text that was not read to its end counts as ended, and nothing more is said of it
    if let Err(error) = end {
        return failed(&rt, "standard input", error);
    }
    say_refusal(&rt, text, out);
    ExitCode::SUCCESS
}

// Says what could not be read or written, and why.
fn failed(rt: &impl Eprint, what: &str, error: io::Error) -> ExitCode {
    let _ = eprintln!(rt; "explain: {what}: {error}");
    ExitCode::FAILURE
}
