// The program `marginrun` once more. The repository's test command runs it on a file that is a byte too long, and `marginrun` on the
// worked example: a program has one input there.
#![tactic(auto)]

use eventrun::input::read_input;
use eventrun::lines::transcript;
use std::io::Write;

fn main(rt: HostRuntime) -> anyhow::Result<()> {
    let heap = rt.alloc();
    let bytes = read_input(heap, rt.stdin())?;
    let text = transcript(heap, bytes.as_slice())?;
    rt.stdout().write_all(text.as_bytes())?;
    Ok(())
}
