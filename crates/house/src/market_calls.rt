// Market calls.
ghost use Rattle.std.specs.Prelude.{◌≡◌, true, map};
ghost use Rattle.tables.specs.Books.{books_of};
ghost use Rattle.tables.specs.Limits.{tables_keep};
ghost use Rattle.rules.specs.Stands.{standing, rows_of, trades_of, AtRest};
ghost use Rattle.rules.specs.MarketCalls.{aged, after_market, market_answer, market_reply, MarketAnswered};

use super::maturing::mature_all;
use super::settle::{finish_settling, settle_constituents};
use market::call::MarketCall;
use market::market::Market;
use models::model::MarginModel;
use refusals::refusal::Refusal;
use rules::call::MarketAnswer;
use rules::house::House;
use tables::checking::tables_keep;
use tables::row::{AccountRow, TradeRow};

// Set, month and both volatility per cents as they stand.
fn answered(number: u8, market: &Market) -> MarketAnswer
    ensures { result ≡ market_answer number market.now.state }
{
    let state = market.state();
    MarketAnswer {
        number,
        month: state.day.month,
        set: state.day.set,
        overnight: state.overnight.volatility,
        forward: state.forward.volatility,
    }
}

// What a market call changes in the accounts before they settle.
fn age(house: &House, records: &mut [AccountRow], trades: &mut [TradeRow], call: MarketCall)
    requires { tables_keep house.now.accounts records.old trades.old ≡ true }
    ensures books { books_of records.new trades.new ≡ map (aged call) (books_of records.old trades.old) }
    ensures keeps { tables_keep house.now.accounts records.new trades.new ≡ true }
{
    if let MarketCall::Month(month) = call {
        mature_all(house, records, trades, month);
    }
}

// A call on tables that keep their limits.
fn act<M: MarginModel>(
    house: &mut House,
    model: &M,
    records: &mut [AccountRow],
    trades: &mut [TradeRow],
    call: MarketCall,
) -> MarketAnswer
    requires { tables_keep house.old.accounts records.old trades.old ≡ true }
    ensures accounts { house.new.accounts ≡ house.old.accounts }
    ensures answer { result ≡ market_reply (M.meaning model.now) (standing house.old.market.state records.old trades.old) call }
    ensures market { house.new.market.state ≡ (after_market (M.meaning model.now) (standing house.old.market.state records.old trades.old) call).market }
    ensures rows { records.new ≡ rows_of (after_market (M.meaning model.now) (standing house.old.market.state records.old trades.old) call) }
    ensures trades { trades.new ≡ trades_of (after_market (M.meaning model.now) (standing house.old.market.state records.old trades.old) call) }
    ensures keeps { tables_keep house.old.accounts records.new trades.new ≡ true }
    ensures rests { result.number ≡ 0 → AtRest (M.meaning model.now) house.new.market.state records.new trades.new }
    ensures stands { standing house.new.market.state records.new trades.new ≡ after_market (M.meaning model.now) (standing house.old.market.state records.old trades.old) call }
{
    match house.market.take(model.sets(), call) {
        Err(refusal) => answered(refusal.number(), &house.market),
        Ok(()) => {
            age(house, records, trades, call);
            settle_constituents(model, house, records, trades);
            finish_settling(model, house, records, trades);
            answered(0, &house.market)
        }
    }
}

// Any market call, with any tables.
pub fn answer_market<M: MarginModel>(
    house: &mut House,
    model: &M,
    records: &mut [AccountRow],
    trades: &mut [TradeRow],
    call: MarketCall,
) -> MarketAnswer
    ensures accounts { house.new.accounts ≡ house.old.accounts }
    ensures answered { MarketAnswered (M.meaning model.now) house.old.market.state house.new.market.state house.old.accounts records.old records.new trades.old trades.new call result }
{
    if !tables_keep(house.accounts, records, trades) {
        return answered(Refusal::Tables.number(), &house.market);
    }
    act(house, model, records, trades, call)
}
