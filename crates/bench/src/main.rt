//! The bench: reads a recording from the standard input and prints a line for each of its messages.

#![tactic(auto)]

use std::io;
use std::io::{Read, Write};

fn main(rt: HostRuntime) -> io::Result<()> {
    let mut input = Vec::new(rt.alloc());
    let mut stdin = rt.stdin();
    stdin.read_to_end(&mut input)?;
    let text = replay::run(rt.alloc(), input.as_slice())?;
    let mut stdout = rt.stdout();
    stdout.write_all(text.as_bytes())
}
