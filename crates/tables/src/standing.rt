// Trades that stand: at most 64, each within its limits.
ghost use Rattle.std.specs.Prelude.{◌≡◌, true};
ghost use Rattle.tables.specs.Limits.{trades_stand};

use super::row::TradeRow;

pub mod lend;

#[derive(Clone, Copy)]
pub struct StandingTrades<'a> {
    trades: &'a [TradeRow],
    ghost stand: { trades_stand trades.now ≡ true },
}
