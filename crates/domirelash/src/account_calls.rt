// Account calls, each by its name: the house stays as it is. After 1, 2 and 255 all but the number is 0.
ghost use Rattle.rules.specs.declared.call.AccountCall.TheVariants.{Trade, End, LodgeCash, DrawCash, LodgeSecurity, DrawSecurity, Show};
ghost use Rattle.ccalls.specs.Meanings.{model_meaning};
ghost use Rattle.ccalls.specs.Answers.{AccountAnswered};

use ccalls::calls::answer_account;
use ccalls::model::CModel;
use crows::row::{CAccount, CHouse};
use rules::call::{AccountCall, Answer};
use tables::row::TradeRow;

// A new trade.
#[unsafe(no_mangle)]
pub extern "C" fn domirelash_new_trade(
    house: &CHouse,
    model: CModel<'_>,
    records: &mut [CAccount],
    trades: &mut [TradeRow],
    account: u32,
    trade: TradeRow,
) -> Answer
    ensures { AccountAnswered (model_meaning model.entry) house.now records.old records.new trades.old trades.new account (Trade trade) result }
{
    answer_account(
        house,
        model,
        records,
        trades,
        account,
        AccountCall::Trade(trade),
    )
}

// The first trade of that number goes.
#[unsafe(no_mangle)]
pub extern "C" fn domirelash_end_trade(
    house: &CHouse,
    model: CModel<'_>,
    records: &mut [CAccount],
    trades: &mut [TradeRow],
    account: u32,
    number: u32,
) -> Answer
    ensures { AccountAnswered (model_meaning model.entry) house.now records.old records.new trades.old trades.new account (End number) result }
{
    answer_account(
        house,
        model,
        records,
        trades,
        account,
        AccountCall::End(number),
    )
}

// Cash comes in, in paise.
#[unsafe(no_mangle)]
pub extern "C" fn domirelash_lodge_cash(
    house: &CHouse,
    model: CModel<'_>,
    records: &mut [CAccount],
    trades: &mut [TradeRow],
    account: u32,
    amount: u64,
) -> Answer
    ensures { AccountAnswered (model_meaning model.entry) house.now records.old records.new trades.old trades.new account (LodgeCash amount) result }
{
    answer_account(
        house,
        model,
        records,
        trades,
        account,
        AccountCall::LodgeCash(amount),
    )
}

// Cash goes out, in paise.
#[unsafe(no_mangle)]
pub extern "C" fn domirelash_draw_cash(
    house: &CHouse,
    model: CModel<'_>,
    records: &mut [CAccount],
    trades: &mut [TradeRow],
    account: u32,
    amount: u64,
) -> Answer
    ensures { AccountAnswered (model_meaning model.entry) house.now records.old records.new trades.old trades.new account (DrawCash amount) result }
{
    answer_account(
        house,
        model,
        records,
        trades,
        account,
        AccountCall::DrawCash(amount),
    )
}

// Lots of a security come in.
#[unsafe(no_mangle)]
pub extern "C" fn domirelash_lodge_security(
    house: &CHouse,
    model: CModel<'_>,
    records: &mut [CAccount],
    trades: &mut [TradeRow],
    account: u32,
    security: u32,
    lots: u32,
) -> Answer
    ensures { AccountAnswered (model_meaning model.entry) house.now records.old records.new trades.old trades.new account (LodgeSecurity security lots) result }
{
    answer_account(
        house,
        model,
        records,
        trades,
        account,
        AccountCall::LodgeSecurity(security, lots),
    )
}

// Lots of a security go out.
#[unsafe(no_mangle)]
pub extern "C" fn domirelash_draw_security(
    house: &CHouse,
    model: CModel<'_>,
    records: &mut [CAccount],
    trades: &mut [TradeRow],
    account: u32,
    security: u32,
    lots: u32,
) -> Answer
    ensures { AccountAnswered (model_meaning model.entry) house.now records.old records.new trades.old trades.new account (DrawSecurity security lots) result }
{
    answer_account(
        house,
        model,
        records,
        trades,
        account,
        AccountCall::DrawSecurity(security, lots),
    )
}

// Nothing but the settlement that every accepted call makes.
#[unsafe(no_mangle)]
pub extern "C" fn domirelash_show(
    house: &CHouse,
    model: CModel<'_>,
    records: &mut [CAccount],
    trades: &mut [TradeRow],
    account: u32,
) -> Answer
    ensures { AccountAnswered (model_meaning model.entry) house.now records.old records.new trades.old trades.new account Show result }
{
    answer_account(house, model, records, trades, account, AccountCall::Show)
}
