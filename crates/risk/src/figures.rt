// What the risk of the trades of one benchmark comes to.
ghost use Rattle.std.specs.Prelude.{Some};

use std::fmt;

pub mod work;

// X by residual, Z by half-year bucket, Y as a whole; the spread charge, the minimum and the initial margin.
#[derive(Clone, Copy, Default)]
pub struct RiskFigures {
    pub residuals: u64,
    pub halfyears: u64,
    pub whole: u64,
    pub spread: u64,
    pub minimum: u64,
    pub initial: u64,
}

impl fmt::Display for RiskFigures {
    ghost use Rattle.risk.specs.Printing.{risk_text};

    ghost output = { λ f. Some (risk_text f) };

    fn fmt<W: fmt::Write>(&self, f: &mut fmt::Formatter<W>) -> fmt::Result {
        write!(
            f,
            "{} {} {} {} {} {}",
            self.residuals, self.halfyears, self.whole, self.spread, self.minimum, self.initial
        )
    }
}
