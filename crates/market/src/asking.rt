// The questions of a market call, in order.
ghost use Rattle.std.specs.Prelude.{◌≡◌, ◌∷◌, [], nat_le};
ghost use Rattle.refusals.specs.Refusals.{first_no};
ghost use Rattle.refusals.specs.declared.refusal.Refusal.TheVariants.{NoFamily};
ghost use Rattle.market.specs.States.{averages_keep, thresholds_keep};
ghost use Rattle.market.specs.Calls.{quote_fits, returns_fit, slot_fits, month_fits, price_questions, check_questions, market_questions};

use super::call::{Check, MarketCall, Quote};
use super::keeping::{averages_keep, thresholds_keep};
use super::state::{FamilyState, MarketState};
use refusals::refusal::{Refusal, ask};
use tables::codes::Family;

fn quote_fits(quote: Quote) -> bool
    ensures { result ≡ quote_fits quote }
{
    (1..=30_000).contains(&quote.price) && quote.haircut <= 100 && quote.listed <= 1
}

fn ask_price(quote: Quote) -> Result<(), Refusal>
    ensures { result ≡ first_no (price_questions quote) }
{
    ask(quote.security < 32, Refusal::NoSecurity)?;
    ask(quote_fits(quote), Refusal::WrongPrice)
}

// What is published for a family: its averages, or its thresholds.
fn ask_published(family: u32, keeps: bool, refusal: Refusal) -> Result<(), Refusal>
    ensures { result ≡ first_no ((nat_le family 1, NoFamily) ∷ (keeps, refusal) ∷ []) }
{
    ask(family <= 1, Refusal::NoFamily)?;
    ask(keeps, refusal)
}

fn returns_fit(returns: [u32; 5]) -> bool
    ensures { result ≡ returns_fit returns }
{
    returns.iter().all(|value| *value <= 1_000_000)
}

// Slots 1 to 4, each above the last of the day.
fn slot_fits(family: &FamilyState, slot: u32) -> bool
    ensures { result ≡ slot_fits family.now slot }
{
    (1..=4).contains(&slot) && (family.slot as u32) < slot
}

fn ask_check(state: &MarketState, check: Check) -> Result<(), Refusal>
    ensures { result ≡ first_no (check_questions state.now check) }
{
    ask(check.family <= 1, Refusal::NoFamily)?;
    ask(returns_fit(check.returns), Refusal::WrongReturns)?;
    let family = state.family(Family::from(check.family));
    ask(family.thresholds.is_some(), Refusal::NoThresholds)?;
    ask(slot_fits(&family, check.slot), Refusal::WrongSlot)
}

fn month_fits(state: &MarketState, month: u16) -> bool
    ensures { result ≡ month_fits state.now month }
{
    state.day.month < month && month <= 1199
}

// The questions of any market call; `sets` is how many sets the call's model has.
pub(crate) fn ask_market(state: &MarketState, sets: u32, call: MarketCall) -> Result<(), Refusal>
    ensures { result ≡ first_no (market_questions sets state.now call) }
{
    match call {
        MarketCall::Set(set) => ask(set < sets, Refusal::NoSet),
        MarketCall::Price(quote) => ask_price(quote),
        MarketCall::StepUp(percent) => ask(percent <= 100, Refusal::WrongStepUp),
        MarketCall::Averages(family, averages) => {
            ask_published(
                family,
                averages_keep(Some(averages)),
                Refusal::WrongAverages,
            )
        }
        MarketCall::Thresholds(family, thresholds) => {
            ask_published(
                family,
                thresholds_keep(Some(thresholds)),
                Refusal::WrongThresholds,
            )
        }
        MarketCall::Volatility(check) => ask_check(state, check),
        MarketCall::Close => Ok(()),
        MarketCall::Month(month) => ask(month_fits(state, month), Refusal::WrongMonth),
    }
}
