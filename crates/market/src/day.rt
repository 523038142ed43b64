// The day that figures are worked out on.
ghost use Rattle.std.specs.Prelude.{◌≡◌, ◌≤◌};
ghost use Rattle.market.specs.Days.{residual_of};

use tables::row::TradeRow;

// The current month, and the set of a model that is in use.
#[derive(Clone, Copy)]
pub struct Day {
    pub month: u16,
    pub set: u32,
}

impl Day {
    // The months that a trade has left, held within 0 and 120.
    pub fn residual(self, trade: &TradeRow) -> u32
        ensures { result ≡ residual_of self trade.now }
    {
        (trade.maturity as u32)
            .saturating_sub(self.month as u32)
            .min(120)
    }
}
