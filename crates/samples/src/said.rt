// What is said of the run of a sample.
ghost use Rattle.std.specs.Prelude.{Some};

use std::fmt;

// Whether it printed what was expected.
#[derive(Clone, Copy, Debug, PartialEq, Eq)]
pub enum Verdict {
    AsExpected,
    Differs,
}

impl fmt::Display for Verdict {
    ghost use Rattle.samples.specs.Lines.{verdict_text};

    ghost output = { λ v. Some (verdict_text v) };

    fn fmt<W: fmt::Write>(&self, f: &mut fmt::Formatter<W>) -> fmt::Result {
        match self {
            Verdict::AsExpected => f.write_str("as expected"),
            Verdict::Differs => f.write_str("DIFFERS"),
        }
    }
}
