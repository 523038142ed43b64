// The figures of one account.
ghost use Rattle.std.specs.Prelude.{Some};

use risk::figures::RiskFigures;
use std::fmt;
use tables::row::Levels;

pub mod work;

// What the trades of one benchmark come to. `mark` is the sum of their marks, `loss` and `credit` what follows from it.
#[derive(Clone, Copy)]
pub struct BenchmarkFigures {
    pub trades: u64,
    pub gross: u64,
    pub risk: RiskFigures,
    pub mark: i64,
    pub loss: u64,
    pub credit: u64,
}

// What a family comes to: its two benchmarks, its levels after settling, its charges.
#[derive(Clone, Copy)]
pub struct FamilyFigures {
    pub first: BenchmarkFigures,
    pub second: BenchmarkFigures,
    pub initial: u64,
    pub gross: u64,
    pub levels: Levels,
    pub volatility: u64,
    pub concentration: u64,
    pub obligation: u64,
    pub credit: u64,
}

// What an account comes to. `collateral` is cash and securities, `available` is that with the credit.
#[derive(Clone, Copy)]
pub struct Figures {
    pub overnight: FamilyFigures,
    pub forward: FamilyFigures,
    pub securities: u64,
    pub collateral: u64,
    pub obligation: u64,
    pub available: u64,
    pub shortfall: u64,
}

impl fmt::Display for BenchmarkFigures {
    ghost use Rattle.margins.specs.Printing.{benchmark_text};

    ghost output = { λ f. Some (benchmark_text f) };

    fn fmt<W: fmt::Write>(&self, f: &mut fmt::Formatter<W>) -> fmt::Result {
        write!(
            f,
            "{} {} {} {} {} {}",
            self.trades, self.gross, self.risk, self.mark, self.loss, self.credit
        )
    }
}

// The levels, the charges and the sums, without the two benchmarks.
impl fmt::Display for FamilyFigures {
    ghost use Rattle.margins.specs.Printing.{family_text};

    ghost output = { λ f. Some (family_text f) };

    fn fmt<W: fmt::Write>(&self, f: &mut fmt::Formatter<W>) -> fmt::Result {
        write!(
            f,
            "{} {} {} {} {} {} {} {}",
            self.initial,
            self.gross,
            self.levels.initial,
            self.levels.gross,
            self.volatility,
            self.concentration,
            self.obligation,
            self.credit
        )
    }
}
