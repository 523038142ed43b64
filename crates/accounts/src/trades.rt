// The trades of one account.
ghost use Rattle.std.specs.Prelude.{◌≡◌, ◌<◌, length, if◌then◌else◌};
ghost use Rattle.rules.specs.Changes.{place_of, holds, closed};

use tables::row::{NO_TRADE, TradeRow};

// Where the first trade of this number stands.
pub(crate) fn find_trade(trades: &[TradeRow], number: u32) -> Option<usize>
    ensures { result ≡ (if holds number trades.now then Some (place_of number trades.now) else None) }
{
    trades.iter().position(|trade| trade.number == number)
}

// Whether a trade of this number stands.
pub(crate) fn holds_trade(trades: &[TradeRow], number: u32) -> bool
    ensures { result ≡ holds number trades.now }
{
    find_trade(trades, number).is_some()
}

// Takes the trade at a place out, and closes up the rest.
pub(crate) fn close_up(places: &mut [TradeRow], at: usize)
    requires { at < length places.old }
    ensures { places.new ≡ closed at places.old }
{
    let last = places.len() - 1;
    places[at..].rotate_left(1);
    places[last] = NO_TRADE;
}
