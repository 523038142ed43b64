// A market state that keeps its limits.
ghost use Rattle.std.specs.Prelude.{◌≡◌, true};
ghost use Rattle.market.specs.States.{market_keeps};

use super::state::MarketState;

pub mod reading;
pub mod taking;

#[derive(Clone, Copy)]
pub struct Market {
    state: MarketState,
    ghost keeps: { market_keeps state ≡ true },
}
