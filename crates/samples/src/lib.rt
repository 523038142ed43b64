// Plays sample files and compares what each run prints with its expected lines.
#![tactic(auto)]

ghost use Rattle.std.specs.Prelude.{◌≡◌, ◌≢◌, map, string_bytes, IfOk};
ghost use Rattle.samples.specs.Lines.{verdict_text, sample_line, ListsSamples};
ghost use Rattle.samples.specs.declared.said.Verdict.TheVariants.{AsExpected, Differs};

pub mod said;

use said::Verdict;
use std::alloc::Global;
use std::fmt::Write;
use std::io::Write as WriteBytes;
use std::{env, fs};

// What is said of a run that prints a text where another is expected.
pub fn verdict(printed: &str, expected: &str) -> Verdict
    ensures as_expected { printed.now ≡ expected.now → result ≡ AsExpected }
    ensures differs { printed.now ≢ expected.now → result ≡ Differs }
{
    if printed == expected {
        Verdict::AsExpected
    } else {
        Verdict::Differs
    }
}

// What is said of the run of a sample. A struct of `rt`, `ending` and `play` for the three functions that take them: tried; the proof
// did not close: a ghost field cannot say that an `F` may be called, so each method would have to ask it again.
fn verdict_of<F: Fn(&HostRuntime, &[u8]) -> anyhow::Result<String>>(
    rt: &HostRuntime,
    name: &str,
    ending: &str,
    play: &F,
) -> anyhow::Result<Verdict>
    requires { F.IsAlwaysCallable play.now }
{
    let heap = rt.alloc();
    let bytes = fs::read(rt, format!(in heap; "{name}.{ending}")?.as_str())?;
    let expected = fs::read_to_string(rt, format!(in heap; "{name}.expected")?.as_str())?;
    let printed = play(rt, bytes.as_slice())?;
    Ok(verdict(printed.as_str(), expected.as_str()))
}

// The line of a sample.
fn line_of(heap: Global, name: &str, verdict: Verdict) -> anyhow::Result<String>
    ensures { IfOk result (λ text. string_bytes text ≡ sample_line name.now (verdict_text verdict)) }
{
    let mut line = String::new(heap);
    writeln!(&mut line, "{name} {verdict}")?;
    Ok(line)
}

// Plays each sample, and makes a line for it, which `say` is given as soon as it is made. Of a NAME the files NAME.ENDING and
// NAME.expected are read.
fn run_saying<
    F: Fn(&HostRuntime, &[u8]) -> anyhow::Result<String>,
    S: Fn(&str) -> anyhow::Result<()>,
>(rt: &HostRuntime, names: &[String], ending: &str, play: F, say: S) -> anyhow::Result<String>
    requires play { F.IsAlwaysCallable play }
    requires say { S.IsAlwaysCallable say }
    ensures { IfOk result (λ text. ListsSamples (map string_bytes names.now) (string_bytes text)) }
{
    let mut text = String::new(rt.alloc());
    for name in names {
        let verdict = verdict_of(rt, name.as_str(), ending, &play)?;
        let line = line_of(rt.alloc(), name.as_str(), verdict)?;
        text.push_str(line.as_str())?;
        say(line.as_str())?;
    }
    Ok(text)
}

// Plays each sample, and makes the text of their lines.
pub fn run<F: Fn(&HostRuntime, &[u8]) -> anyhow::Result<String>>(
    rt: &HostRuntime,
    names: &[String],
    ending: &str,
    play: F,
) -> anyhow::Result<String>
    requires { F.IsAlwaysCallable play }
    ensures { IfOk result (λ text. ListsSamples (map string_bytes names.now) (string_bytes text)) }
{
    run_saying(rt, names, ending, play, |_| Ok(()))
}

// Writes a line at once.
fn print_line(rt: &HostRuntime, line: &str) -> anyhow::Result<()> {
    rt.stdout().write_all(line.as_bytes())?;
    Ok(())
}

// The whole of a program that plays samples: those that its arguments name. A line is written when its sample was played, so that one
// that cannot be read leaves the lines before it printed. The lines make `run`'s text; of what reaches standard output no clause of the
// library speaks.
pub fn print_runs<F: Fn(&HostRuntime, &[u8]) -> anyhow::Result<String>>(
    rt: &HostRuntime,
    ending: &str,
    play: F,
) -> anyhow::Result<()>
    requires { F.IsAlwaysCallable play }
{
    let names: Vec<String> = env::args(rt)?.skip(1).collect(rt.alloc())?;
    let _ = run_saying(
        rt,
        names.as_slice(),
        ending,
        play,
        |line| print_line(rt, line),
    )?;
    Ok(())
}
