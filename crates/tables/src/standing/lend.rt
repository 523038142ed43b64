// Making standing trades, and reading them.
ghost use Rattle.std.specs.Prelude.{◌≡◌, true, false, MatchOption};
ghost use Rattle.tables.specs.Limits.{trades_stand};

use super::super::limits::trades_stand;
use super::super::row::TradeRow;
use super::StandingTrades;

impl<'a> StandingTrades<'a> {
    // The making after the check `trades_stand`.
    pub fn new(trades: &'a [TradeRow]) -> StandingTrades<'a>
        requires { trades_stand trades.now ≡ true }
        ensures { result.trades.now ≡ trades.now }
    {
        StandingTrades { trades }
    }

    // None where they are more than 64, or one is out of range.
    pub fn from_rows(trades: &'a [TradeRow]) -> Option<StandingTrades<'a>>
        ensures { MatchOption result (trades_stand trades.now ≡ false) (λ s. s.trades.now ≡ trades.now) }
    {
        // `then` would need a closure with a clause on the trades, and so is no plainer.
        if trades_stand(trades) {
            Some(StandingTrades::new(trades))
        } else {
            None
        }
    }

    pub fn rows(self) -> &'a [TradeRow]
        ensures value { result.now ≡ self.entry.trades.now }
        ensures keeps { trades_stand result.now ≡ true }
    {
        self.trades
    }
}
