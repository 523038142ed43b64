// The account calls by name. They stand beside `answer_account` since callers in Rattle know each by its name and arguments.
// Each asks its questions in order and answers the first no; a refused call changes nothing.
ghost use Rattle.std.specs.Prelude.{◌≡◌};
ghost use Rattle.rules.specs.Outcomes.{Answered};

use super::account::answer_account;
use models::model::MarginModel;
use rules::call::{AccountCall, Answer};
use rules::house::House;
use tables::row::{AccountRow, TradeRow};

// A new trade.
pub fn new_trade<M: MarginModel>(
    house: &House,
    model: &M,
    records: &mut [AccountRow],
    trades: &mut [TradeRow],
    account: u32,
    trade: TradeRow,
) -> Answer
    ensures { Answered (M.meaning model.now) house.now.market.state house.now.accounts records.old records.new trades.old trades.new account (AccountCall.Trade trade) result }
{
    answer_account(
        house,
        model,
        records,
        trades,
        account,
        AccountCall::Trade(trade),
    )
}

// The first trade of this number goes, and the rest close up.
pub fn end_trade<M: MarginModel>(
    house: &House,
    model: &M,
    records: &mut [AccountRow],
    trades: &mut [TradeRow],
    account: u32,
    number: u32,
) -> Answer
    ensures { Answered (M.meaning model.now) house.now.market.state house.now.accounts records.old records.new trades.old trades.new account (AccountCall.End number) result }
{
    answer_account(
        house,
        model,
        records,
        trades,
        account,
        AccountCall::End(number),
    )
}

// Cash comes in, in paise.
pub fn lodge_cash<M: MarginModel>(
    house: &House,
    model: &M,
    records: &mut [AccountRow],
    trades: &mut [TradeRow],
    account: u32,
    amount: u64,
) -> Answer
    ensures { Answered (M.meaning model.now) house.now.market.state house.now.accounts records.old records.new trades.old trades.new account (AccountCall.LodgeCash amount) result }
{
    answer_account(
        house,
        model,
        records,
        trades,
        account,
        AccountCall::LodgeCash(amount),
    )
}

// Cash goes out, in paise.
pub fn draw_cash<M: MarginModel>(
    house: &House,
    model: &M,
    records: &mut [AccountRow],
    trades: &mut [TradeRow],
    account: u32,
    amount: u64,
) -> Answer
    ensures { Answered (M.meaning model.now) house.now.market.state house.now.accounts records.old records.new trades.old trades.new account (AccountCall.DrawCash amount) result }
{
    answer_account(
        house,
        model,
        records,
        trades,
        account,
        AccountCall::DrawCash(amount),
    )
}

// Lots of a security come in.
pub fn lodge_security<M: MarginModel>(
    house: &House,
    model: &M,
    records: &mut [AccountRow],
    trades: &mut [TradeRow],
    account: u32,
    security: u32,
    lots: u32,
) -> Answer
    ensures { Answered (M.meaning model.now) house.now.market.state house.now.accounts records.old records.new trades.old trades.new account (AccountCall.LodgeSecurity security lots) result }
{
    answer_account(
        house,
        model,
        records,
        trades,
        account,
        AccountCall::LodgeSecurity(security, lots),
    )
}

// Lots of a security go out.
pub fn draw_security<M: MarginModel>(
    house: &House,
    model: &M,
    records: &mut [AccountRow],
    trades: &mut [TradeRow],
    account: u32,
    security: u32,
    lots: u32,
) -> Answer
    ensures { Answered (M.meaning model.now) house.now.market.state house.now.accounts records.old records.new trades.old trades.new account (AccountCall.DrawSecurity security lots) result }
{
    answer_account(
        house,
        model,
        records,
        trades,
        account,
        AccountCall::DrawSecurity(security, lots),
    )
}

// Nothing but the settlement that every accepted call makes.
pub fn show<M: MarginModel>(
    house: &House,
    model: &M,
    records: &mut [AccountRow],
    trades: &mut [TradeRow],
    account: u32,
) -> Answer
    ensures { Answered (M.meaning model.now) house.now.market.state house.now.accounts records.old records.new trades.old trades.new account (AccountCall.Show) result }
{
    answer_account(house, model, records, trades, account, AccountCall::Show)
}
