// Reads an event file from standard input and prints the answer to each record.
#![tactic(auto)]

use eventrun::input::read_input;
use eventrun::lines::transcript;
use std::io::Write;

// The program `marginday` has as few lines. They share no function: this one bounds what it reads, and plays it otherwise.
fn main(rt: HostRuntime) -> anyhow::Result<()> {
    let heap = rt.alloc();
    let bytes = read_input(heap, rt.stdin())?;
    let text = transcript(heap, bytes.as_slice())?;
    rt.stdout().write_all(text.as_bytes())?;
    Ok(())
}
