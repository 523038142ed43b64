// Plays the script on standard input and prints the answer to each line.
#![tactic(auto)]

use scriptrun::run::transcript;
use std::io::{Read, Write};

// The program `marginrun` has the same few lines. They share no function: that one bounds what it reads, and plays it otherwise.
fn main(rt: HostRuntime) -> anyhow::Result<()> {
    let mut bytes = Vec::new(rt.alloc());
    let _ = rt.stdin().read_to_end(&mut bytes)?;
    let text = transcript(&rt, bytes.as_slice())?;
    rt.stdout().write_all(text.as_bytes())?;
    Ok(())
}
