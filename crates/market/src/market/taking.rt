// A market that takes its calls.
ghost use Rattle.std.specs.Prelude.{◌≡◌};
ghost use Rattle.refusals.specs.Refusals.{first_no, decided};
ghost use Rattle.market.specs.Calls.{market_questions, market_changed};

use super::super::asking::ask_market;
use super::super::call::MarketCall;
use super::Market;
use refusals::refusal::Refusal;

impl Market {
    // Asks the questions of a call, and makes its change where each is answered yes; a refused call changes nothing.
    // `sets` is how many sets the call's model has.
    pub fn take(&mut self, sets: u32, call: MarketCall) -> Result<(), Refusal>
        ensures answer { result ≡ first_no (market_questions sets self.old.state call) }
        ensures state { self.new.state ≡ decided (first_no (market_questions sets self.old.state call)) (market_changed call self.old.state) (λ e. self.old.state) }
    {
        ask_market(&self.state, sets, call)?;
        self.state.change(call);
        Ok(())
    }
}
