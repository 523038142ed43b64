// Making a market from a state, and reading it.
ghost use Rattle.std.specs.Prelude.{◌≡◌, true, false, MatchOption};
ghost use Rattle.market.specs.States.{market_keeps, family_state};

use super::super::keeping::market_keeps;
use super::super::state::{FamilyState, MarketState};
use super::Market;
use tables::codes::Family;

impl Market {
    // The making after the check `market_keeps`.
    pub fn new(state: MarketState) -> Market
        requires { market_keeps state ≡ true }
        ensures { result.state ≡ state }
    {
        Market { state }
    }

    // None where a number is out of range.
    pub fn from_state(state: MarketState) -> Option<Market>
        ensures { MatchOption result (market_keeps state ≡ false) (λ m. m.state ≡ state) }
    {
        // `then` would need a closure with a clause on the state, and so is no plainer.
        if market_keeps(&state) {
            Some(Market { state })
        } else {
            None
        }
    }

    pub fn state(&self) -> &MarketState
        ensures value { result.now ≡ self.now.state }
        ensures keeps { market_keeps result.now ≡ true }
    {
        &self.state
    }

    pub fn family(&self, family: Family) -> FamilyState
        ensures { result ≡ family_state self.now.state family }
    {
        self.state.family(family)
    }
}
