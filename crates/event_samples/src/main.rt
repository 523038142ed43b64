// Plays sample event files and compares what each run prints with its expected lines.
// Arguments: the names of the samples. For each NAME the files NAME.ev and NAME.expected are read.
#![tactic(auto)]

use eventrun::lines::transcript;
use samples::print_runs;

fn main(rt: HostRuntime) -> anyhow::Result<()> {
    print_runs(&rt, "ev", |rt, bytes| transcript(rt.alloc(), bytes))
}
