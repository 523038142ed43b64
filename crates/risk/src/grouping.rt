// By what trades are put into groups. An enum and no closure: the rules name these three, and definitions go by them.
ghost use Rattle.std.specs.Prelude.{◌≡◌};
ghost use Rattle.risk.specs.Groups.{key_of, groups_of};

use market::day::Day;
use tables::row::TradeRow;

#[derive(Clone, Copy)]
pub enum Grouping {
    ByResidual,
    ByHalfYear,
    ByBenchmark,
}

impl Grouping {
    // How many groups there are.
    pub fn groups(self) -> u32
        ensures { result ≡ groups_of self }
    {
        match self {
            Grouping::ByResidual => 121,
            Grouping::ByHalfYear => 20,
            Grouping::ByBenchmark => 4,
        }
    }

    // The group of a trade.
    pub fn key(self, day: Day, trade: &TradeRow) -> u32
        ensures { result ≡ key_of self day trade.now }
    {
        match self {
            Grouping::ByResidual => day.residual(trade),
            Grouping::ByHalfYear => (day.residual(trade) / 6).min(19),
            Grouping::ByBenchmark => trade.benchmark as u32,
        }
    }
}
