// Any call, with any tables.
ghost use Rattle.std.specs.Prelude.{◌≡◌};
ghost use Rattle.engine.specs.Promises.{AnswersCall};

use house::account::answer_account;
use house::market_calls::answer_market;
use models::model::MarginModel;
use rules::call::{Call, Reply};
use rules::house::House;
use tables::row::{AccountRow, TradeRow};

// Answers a call. A refused one changes nothing; tables that are not the house's own are answered 1.
pub fn answer<M: MarginModel>(
    house: &mut House,
    model: &M,
    records: &mut [AccountRow],
    trades: &mut [TradeRow],
    call: Call,
) -> Reply
    ensures accounts { house.new.accounts ≡ house.old.accounts }
    ensures answered { AnswersCall (M.meaning model.now) house.old.market.state house.new.market.state house.old.accounts records.old records.new trades.old trades.new call result }
{
    match call {
        Call::Account(named) => Reply::Account(answer_account(
            house,
            model,
            records,
            trades,
            named.account,
            named.call,
        )),
        Call::Market(change) => {
            Reply::Market(answer_market(house, model, records, trades, change))
        }
    }
}
