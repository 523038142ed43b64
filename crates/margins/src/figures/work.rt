// Working the figures of an account out.
ghost use Rattle.std.specs.Prelude.{◌≡◌, ◌+◌, ◌*◌, ◌≤◌, length};
ghost use Rattle.tables.specs.Codes.{first_benchmark, second_benchmark};
ghost use Rattle.margins.specs.Figures.{gross_of, benchmark_of, part_of, family_from, family_of, figures_of, both_initial, many, Bounded};
ghost use Rattle.margins.specs.Settled.{LevelSettles, OwnSettles, SecondSettles, FiguresSettle};
ghost use Rattle.margins.specs.Worked.{Worked};

use super::super::charges::{concentration_charge, next_levels, volatility_margin};
use super::super::collateral::securities_value;
use super::super::marks::{margin_credit, mark_to_market};
use super::{BenchmarkFigures, FamilyFigures, Figures};
use market::market::Market;
use market::state::FamilyState;
use models::model::MarginModel;
use risk::figures::work::risk_figures;
use risk::gather::gather;
use risk::grouping::Grouping;
use risk::money::lost;
use risk::quotes::Quotes;
use tables::account::Account;
use tables::codes::{Benchmark, Family};
use tables::row::{Levels, NO_TRADE, TradeRow};
use tables::standing::StandingTrades;

// The gross notional of the trades.
#[tactic(auto, unfolding(crate::specs::Figures::gross_of))]
fn gross_notional(trades: &[TradeRow]) -> u64
    requires { length trades.now ≤ 64 }
    ensures { result ≡ gross_of trades.now }
{
    trades.iter().map(|trade| trade.notional as u64).sum()
}

// A model, and the market that it is asked in.
#[derive(Drop)]
struct Valuation<'a, M> {
    model: &'a M,
    market: &'a Market,
}

impl<'a, M: MarginModel> Valuation<'a, M> {
    // What the trades of one benchmark come to.
    #[tactic(auto, unfolding(crate::specs::Figures::benchmark_of))]
    fn benchmark(&self, trades: StandingTrades) -> BenchmarkFigures
        ensures value { result ≡ benchmark_of (M.meaning self.now.model.now) self.now.market.now.state trades.entry.trades.now }
        ensures bound { Bounded result (length trades.entry.trades.now) }
    {
        let quotes = Quotes {
            model: self.model,
            day: self.market.state().day,
        };
        let rows = trades.rows();
        let mark = mark_to_market(&quotes, trades);
        BenchmarkFigures {
            trades: rows.len() as u64,
            gross: gross_notional(rows),
            risk: risk_figures(self.model, self.market, trades),
            mark,
            loss: lost(mark),
            credit: margin_credit(mark),
        }
    }

    // What the trades of an account in one benchmark come to. They are gathered once.
    #[tactic(auto, unfolding(crate::specs::Figures::part_of))]
    fn part(&self, benchmark: Benchmark, trades: StandingTrades) -> BenchmarkFigures
        ensures value { result ≡ part_of (M.meaning self.now.model.now) self.now.market.now.state benchmark trades.entry.trades.now }
        ensures bound { Bounded result (many self.now.market.now.state benchmark trades.entry.trades.now) }
    {
        let mut room = [NO_TRADE; 64];
        let day = self.market.state().day;
        let key = u32::from(benchmark);
        let group = gather(Grouping::ByBenchmark, day, key, trades, &mut room);
        self.benchmark(group)
    }

    // What a family of an account comes to.
    #[tactic(auto, unfolding(crate::specs::Figures::family_of))]
    fn family(&self, family: Family, levels: Levels, trades: StandingTrades) -> FamilyFigures
        ensures levels { (result.levels.initial ≤ 2) × (result.levels.gross ≤ 2) }
        ensures value { result ≡ family_of (M.meaning self.now.model.now) self.now.market.now.state family levels trades.entry.trades.now }
        ensures obligation { result.obligation ≤ 34400000000000 * (many self.now.market.now.state (first_benchmark family) trades.entry.trades.now + many self.now.market.now.state (second_benchmark family) trades.entry.trades.now) }
        ensures credit { result.credit ≤ 20000000000000 * (many self.now.market.now.state (first_benchmark family) trades.entry.trades.now + many self.now.market.now.state (second_benchmark family) trades.entry.trades.now) }
    {
        let first = self.part(family.first(), trades);
        let second = self.part(family.second(), trades);
        join_benchmarks(self.market.family(family), levels, first, second)
    }
}

// What two benchmarks of a family come to.
fn join_benchmarks(
    family: FamilyState,
    levels: Levels,
    first: BenchmarkFigures,
    second: BenchmarkFigures,
) -> FamilyFigures
    requires volatility { family.volatility ≤ 1000 }
    requires initial { both_initial first second ≤ 1000000000000000 }
    requires loss { first.loss + second.loss ≤ 2000000000000000 }
    requires credit { first.credit + second.credit ≤ 2000000000000000 }
    requires gross { first.gross + second.gross ≤ 1000000000000000 }
    ensures levels { (result.levels.initial ≤ 2) × (result.levels.gross ≤ 2) }
    ensures value { result ≡ family_from family levels first second }
    ensures obligation { result.obligation ≤ 3 * both_initial first second + (first.loss + second.loss) }
{
    let initial = first.risk.initial + second.risk.initial;
    let gross = first.gross + second.gross;
    let next = next_levels(family.averages, levels, initial, gross);
    let volatility = volatility_margin(initial, family.volatility);
    let concentration = concentration_charge(initial, next);
    FamilyFigures {
        first,
        second,
        initial,
        gross,
        levels: next,
        volatility,
        concentration,
        obligation: initial + (first.loss + second.loss) + volatility + concentration,
        credit: first.credit + second.credit,
    }
}

// The figures of an account, without the cover that a house carries. Model and market stay two parameters: they are a value inside.
#[tactic(auto, unfolding(crate::specs::Figures::figures_of))]
pub fn figures<M: MarginModel>(
    model: &M,
    market: &Market,
    account: &Account,
    trades: StandingTrades,
) -> Figures
    ensures levels { (result.overnight.levels.initial ≤ 2) × ((result.overnight.levels.gross ≤ 2) × ((result.forward.levels.initial ≤ 2) × (result.forward.levels.gross ≤ 2))) }
    ensures value { result ≡ figures_of (M.meaning model.now) market.now.state account.now.row trades.entry.trades.now }
    ensures obligation { result.obligation ≤ 3000000000000000 }
    ensures available { result.available ≤ 3000000000000000 }
    ensures shortfall { result.shortfall ≤ 3000000000000000 }
{
    let row = account.row();
    let valuation = Valuation { model, market };
    let overnight = valuation.family(Family::Overnight, row.overnight, trades);
    let forward = valuation.family(Family::Forward, row.forward, trades);
    let securities = securities_value(&row.lots, &market.state().securities);
    let collateral = row.cash + securities;
    let obligation = overnight.obligation + forward.obligation;
    let available = collateral + (overnight.credit + forward.credit);
    Figures {
        overnight,
        forward,
        securities,
        collateral,
        obligation,
        available,
        shortfall: obligation.saturating_sub(available),
    }
}

// Levels, flags and figures that are settled again at the same values stay.
pub fn settling_laws()
    ensures level { LevelSettles }
    ensures own { OwnSettles }
    ensures second { SecondSettles }
    ensures figures { FiguresSettle }
{}

// The worked figures follow from the rules.
pub fn worked_figures()
    ensures { Worked }
{}
