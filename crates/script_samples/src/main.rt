// Plays sample scripts and compares what each run prints with its expected lines.
// Arguments: the names of the samples. For each NAME the files NAME.script and NAME.expected are read.
#![tactic(auto)]

use samples::print_runs;
use scriptrun::run::transcript;

fn main(rt: HostRuntime) -> anyhow::Result<()> {
    print_runs(&rt, "script", transcript)
}
