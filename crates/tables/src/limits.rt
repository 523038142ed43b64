// Whether rows keep their limits.
ghost use Rattle.std.specs.Prelude.{◌≡◌};
ghost use Rattle.std.specs.List.{list_all};
ghost use Rattle.tables.specs.Limits.{trade_keeps, trades_stand, lots_keep, levels_keep, holdings_keep, security_keeps};

use super::row::{AccountRow, Levels, SecurityRow, TradeRow};

pub fn trade_keeps(trade: &TradeRow) -> bool
    ensures { result ≡ trade_keeps trade.now }
{
    trade.benchmark <= 3
        && trade.side <= 1
        && (1..=1_000_000).contains(&trade.notional)
        && trade.rate <= 200_000
}

pub(crate) fn each_keeps(trades: &[TradeRow]) -> bool
    ensures { result ≡ list_all trade_keeps trades.now }
{
    trades.iter().all(trade_keeps)
}

// Whether these may be an account's standing trades.
pub fn trades_stand(trades: &[TradeRow]) -> bool
    ensures { result ≡ trades_stand trades.now }
{
    trades.len() <= 64 && each_keeps(trades)
}

// Without a jump between two lots, so that the compiler tests several at once.
fn lots_keep(lots: &[u32]) -> bool
    ensures { result ≡ lots_keep lots.now }
{
    lots.iter()
        .fold(true, |all, count| all & (*count <= 1_000_000))
}

fn levels_keep(levels: Levels) -> bool
    ensures { result ≡ levels_keep levels }
{
    levels.initial <= 2 && levels.gross <= 2
}

// Whether the holdings of a record keep their limits.
pub fn holdings_keep(row: &AccountRow) -> bool
    ensures { result ≡ holdings_keep row.now }
{
    row.cash <= 100_000_000_000_000
        && row.trades <= 64
        && levels_keep(row.overnight)
        && levels_keep(row.forward)
        && lots_keep(&row.lots)
}

pub fn security_keeps(security: &SecurityRow) -> bool
    ensures { result ≡ security_keeps security.now }
{
    security.price <= 30_000 && security.haircut <= 100
}

// Whether every security keeps its limits.
pub fn securities_keep(securities: &[SecurityRow]) -> bool
    ensures { result ≡ list_all security_keeps securities.now }
{
    securities.iter().all(security_keeps)
}
