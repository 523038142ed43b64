// Working the risk figures out.
ghost use Rattle.std.specs.Prelude.{◌≡◌, ◌*◌, ◌≤◌, length};
ghost use Rattle.tables.specs.Numbers.{RoundsUp};
ghost use Rattle.risk.specs.Losses.{AtRisk, OneAtRisk};
ghost use Rattle.risk.specs.Initial.{risk_of};

use super::super::initial::{minimum_margin, spread_charge, step_up};
use super::super::quotes::Quotes;
use super::super::sums::Sums;
use super::RiskFigures;
use market::market::Market;
use models::model::MarginModel;
use tables::standing::StandingTrades;

impl<'a, M: MarginModel> Quotes<'a, M> {
    #[tactic(auto, unfolding(crate::specs::Initial::risk_of))]
    fn work_out(&self, percent: u32, trades: StandingTrades) -> RiskFigures
        requires { percent ≤ 100 }
        ensures value { result ≡ risk_of (M.meaning self.now.model.now) self.now.day percent trades.entry.trades.now }
        ensures words { AtRisk (M.meaning self.now.model.now) self.now.day trades.entry.trades.now result.whole }
        ensures initial { result.initial ≤ 4800000000000 * length trades.entry.trades.now }
    {
        if trades.rows().is_empty() {
            return RiskFigures::default();
        }
        let Sums {
            residuals,
            halfyears,
            whole,
        } = self.sums(trades);
        let spread = spread_charge(residuals, halfyears, whole);
        let minimum = minimum_margin(self.day, trades);
        RiskFigures {
            residuals,
            halfyears,
            whole,
            spread,
            minimum,
            initial: step_up(percent, (whole + spread).max(minimum)),
        }
    }
}

// The risk figures of the trades of one benchmark. It takes the market and no `Quotes`: those would not say that the step-up is
// within its limit.
pub fn risk_figures<M: MarginModel>(
    model: &M,
    market: &Market,
    trades: StandingTrades,
) -> RiskFigures
    ensures value { result ≡ risk_of (M.meaning model.now) market.now.state.day market.now.state.percent trades.entry.trades.now }
    ensures words { AtRisk (M.meaning model.now) market.now.state.day trades.entry.trades.now result.whole }
    ensures initial { result.initial ≤ 4800000000000 * length trades.entry.trades.now }
{
    let state = market.state();
    let quotes = Quotes {
        model,
        day: state.day,
    };
    quotes.work_out(state.percent, trades)
}

// The words of the value at risk leave one number; a quotient rounded up is the least that covers it.
pub fn risk_laws()
    ensures one { OneAtRisk }
    ensures rounding { RoundsUp }
{}
