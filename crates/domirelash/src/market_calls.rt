// Market calls, each by its name. Only an accepted one writes the house. After 255 all but the number is 0.
ghost use Rattle.ccalls.specs.Meanings.{model_meaning};
ghost use Rattle.ccalls.specs.Answers.{MarketAnswered};

use super::given::{CReturns, check_of};
use ccalls::calls::answer_market;
use ccalls::model::CModel;
use crows::row::{CAccount, CHouse};
use market::call::{MarketCall, Quote};
use market::state::{Averages, Thresholds};
use rules::call::MarketAnswer;
use tables::row::TradeRow;

// The set of the model in force.
#[unsafe(no_mangle)]
pub extern "C" fn domirelash_set(
    house: &mut CHouse,
    model: CModel<'_>,
    records: &mut [CAccount],
    trades: &mut [TradeRow],
    set: u32,
) -> MarketAnswer
    ensures { MarketAnswered (model_meaning model.entry) house.old house.new records.old records.new trades.old trades.new (MarketCall.Set set) result }
{
    answer_market(house, model, records, trades, MarketCall::Set(set))
}

// What is published of a security: paise per Rs 100 of face, per cent of haircut, listed 0 or 1.
#[unsafe(no_mangle)]
pub extern "C" fn domirelash_price(
    house: &mut CHouse,
    model: CModel<'_>,
    records: &mut [CAccount],
    trades: &mut [TradeRow],
    security: u32,
    price: u32,
    haircut: u32,
    listed: u32,
) -> MarketAnswer
    ensures { MarketAnswered (model_meaning model.entry) house.old house.new records.old records.new trades.old trades.new (MarketCall.Price (record { security = security; price = price; haircut = haircut; listed = listed })) result }
{
    answer_market(
        house,
        model,
        records,
        trades,
        MarketCall::Price(Quote {
            security,
            price,
            haircut,
            listed,
        }),
    )
}

// The step-up.
#[unsafe(no_mangle)]
pub extern "C" fn domirelash_step_up(
    house: &mut CHouse,
    model: CModel<'_>,
    records: &mut [CAccount],
    trades: &mut [TradeRow],
    percent: u32,
) -> MarketAnswer
    ensures { MarketAnswered (model_meaning model.entry) house.old house.new records.old records.new trades.old trades.new (MarketCall.StepUp percent) result }
{
    answer_market(house, model, records, trades, MarketCall::StepUp(percent))
}

// The averages of a family: of initial margin and of gross notional.
#[unsafe(no_mangle)]
pub extern "C" fn domirelash_averages(
    house: &mut CHouse,
    model: CModel<'_>,
    records: &mut [CAccount],
    trades: &mut [TradeRow],
    family: u32,
    initial: u64,
    gross: u64,
) -> MarketAnswer
    ensures { MarketAnswered (model_meaning model.entry) house.old house.new records.old records.new trades.old trades.new (MarketCall.Averages family (record { initial = initial; gross = gross })) result }
{
    answer_market(
        house,
        model,
        records,
        trades,
        MarketCall::Averages(family, Averages { initial, gross }),
    )
}

// The triggers and calm marks of a family.
#[unsafe(no_mangle)]
pub extern "C" fn domirelash_thresholds(
    house: &mut CHouse,
    model: CModel<'_>,
    records: &mut [CAccount],
    trades: &mut [TradeRow],
    family: u32,
    marks: Thresholds,
) -> MarketAnswer
    ensures { MarketAnswered (model_meaning model.entry) house.old house.new records.old records.new trades.old trades.new (MarketCall.Thresholds family marks) result }
{
    answer_market(
        house,
        model,
        records,
        trades,
        MarketCall::Thresholds(family, marks),
    )
}

// A volatility check.
#[unsafe(no_mangle)]
pub extern "C" fn domirelash_volatility(
    house: &mut CHouse,
    model: CModel<'_>,
    records: &mut [CAccount],
    trades: &mut [TradeRow],
    family: u32,
    slot: u32,
    given: CReturns,
) -> MarketAnswer
    ensures { MarketAnswered (model_meaning model.entry) house.old house.new records.old records.new trades.old trades.new (MarketCall.Volatility (record { family = family; slot = slot; returns = given.of })) result }
{
    answer_market(
        house,
        model,
        records,
        trades,
        MarketCall::Volatility(check_of(family, slot, given)),
    )
}

// The end of the day.
#[unsafe(no_mangle)]
pub extern "C" fn domirelash_close(
    house: &mut CHouse,
    model: CModel<'_>,
    records: &mut [CAccount],
    trades: &mut [TradeRow],
) -> MarketAnswer
    ensures { MarketAnswered (model_meaning model.entry) house.old house.new records.old records.new trades.old trades.new (MarketCall.Close) result }
{
    answer_market(house, model, records, trades, MarketCall::Close)
}

// The current month.
#[unsafe(no_mangle)]
pub extern "C" fn domirelash_month(
    house: &mut CHouse,
    model: CModel<'_>,
    records: &mut [CAccount],
    trades: &mut [TradeRow],
    month: u16,
) -> MarketAnswer
    ensures { MarketAnswered (model_meaning model.entry) house.old house.new records.old records.new trades.old trades.new (MarketCall.Month month) result }
{
    answer_market(house, model, records, trades, MarketCall::Month(month))
}
