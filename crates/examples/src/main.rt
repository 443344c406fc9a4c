// Prints what the letter view shows, which C cannot call. The measured examples are a theorem
// (proofs/Starred) and case lines.
#![tactic(auto)]

mod views;

use std::io;

fn main(rt: HostRuntime) -> io::Result<()> {
    views::views(&rt)
}
