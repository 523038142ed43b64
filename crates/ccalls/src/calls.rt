// Any call on a plain house, with plain records and a model as it is passed.
ghost use Rattle.std.specs.Prelude.{◌≡◌, true, false};
ghost use Rattle.rules.specs.declared.call.Call.TheVariants.{Account, Market};
ghost use Rattle.rules.specs.declared.call.Reply.TheVariants.{Account as AccountReply, Market as MarketReply};
ghost use Rattle.rules.specs.Outcomes.{blank_answer};
ghost use Rattle.rules.specs.MarketCalls.{blank_market};
ghost use Rattle.engine.specs.Promises.{AnswersCall};
ghost use Rattle.crows.specs.Rows.{accounts_of, accounts_fit, state_of, house_keeps};
ghost use Rattle.ccalls.specs.Meanings.{joined_meaning, model_meaning};
ghost use Rattle.ccalls.specs.Answers.{RowsAnswered, AccountAnswered, MarketAnswered};

use super::model::{CModel, laid};
use super::rows::{accounts_fit, read_accounts, write_accounts};
use crows::houses::{house_numbers, house_of};
use crows::row::{CAccount, CHouse};
use engine::answer::answer;
use knots::model::KnotLayout;
use market::call::MarketCall;
use models::joined::Joined;
use models::model::MarginModel;
use models::table::TableLayout;
use opening::opening::empty_row;
use rules::call::{AccountCall, Answer, Call, MarketAnswer, NamedCall, Reply};
use rules::house::House;
use tables::row::{AccountRow, TradeRow};

// The number where the memory of a house holds none: no enum, since C reads it as a number.
const NO_HOUSE: u8 = 255;

// House, model, records, trades and call go down one by one, as `engine::answer` takes them: the records become rows on the way, so
// that a struct of all five would be taken apart and made anew in the middle, and once more at the end.

// A call on the engine's own rows, with the first numbers' model alone or joined with the second's. Where numbers are joined, each make
// of the second has a call of its own, so that no question to the model looks for its make again.
fn answer_joined<F: MarginModel + Drop>(
    house: &mut House,
    first: F,
    model: CModel<'_>,
    records: &mut [AccountRow],
    trades: &mut [TradeRow],
    call: Call,
) -> Reply
    ensures accounts { house.new.accounts ≡ house.old.accounts }
    ensures answered { AnswersCall (joined_meaning (F.meaning first) model.entry) house.old.market.state house.new.market.state house.old.accounts records.old records.new trades.old trades.new call result }
{
    if model.joined == 0 {
        answer(house, &first, records, trades, call)
    } else if model.second.kind == 0 {
        let joined = Joined::new(first, laid::<TableLayout>(model.second));
        answer(house, &joined, records, trades, call)
    } else {
        let joined = Joined::new(first, laid::<KnotLayout>(model.second));
        answer(house, &joined, records, trades, call)
    }
}

// The same, by the make of the first numbers.
fn answer_made(
    house: &mut House,
    model: CModel<'_>,
    records: &mut [AccountRow],
    trades: &mut [TradeRow],
    call: Call,
) -> Reply
    ensures accounts { house.new.accounts ≡ house.old.accounts }
    ensures answered { AnswersCall (model_meaning model.entry) house.old.market.state house.new.market.state house.old.accounts records.old records.new trades.old trades.new call result }
{
    if model.first.kind == 0 {
        let first = laid::<TableLayout>(model.first);
        answer_joined(house, first, model, records, trades, call)
    } else {
        let first = laid::<KnotLayout>(model.first);
        answer_joined(house, first, model, records, trades, call)
    }
}

// A call on at most 32 records, whose flags are flags: they are read into rows of the engine, and written back. The room is an array, of which the
// front is used: there is no heap.
fn answer_fit(
    house: &mut House,
    model: CModel<'_>,
    records: &mut [CAccount],
    trades: &mut [TradeRow],
    call: Call,
) -> Reply
    requires { accounts_fit records.old ≡ true }
    ensures accounts { house.new.accounts ≡ house.old.accounts }
    ensures answered { AnswersCall (model_meaning model.entry) house.old.market.state house.new.market.state house.old.accounts (accounts_of records.old) (accounts_of records.new) trades.old trades.new call result }
    ensures fits { accounts_fit records.new ≡ true }
{
    let mut held = [empty_row(); 32];
    let rows = &mut held[..records.len()];
    read_accounts(records, rows);
    let reply = answer_made(house, model, rows, trades, call);
    write_accounts(rows, records);
    reply
}

// A call on any records. Those that are none fail question 1, as the empty tables do that the engine is given for them.
fn answer_rows(
    house: &mut House,
    model: CModel<'_>,
    records: &mut [CAccount],
    trades: &mut [TradeRow],
    call: Call,
) -> Reply
    ensures accounts { house.new.accounts ≡ house.old.accounts }
    ensures answered { RowsAnswered (model_meaning model.entry) house.old.market.state house.new.market.state house.old.accounts records.old records.new trades.old trades.new call result }
{
    if accounts_fit(records) {
        answer_fit(house, model, records, trades, call)
    } else {
        answer_made(house, model, &mut [], &mut [], call)
    }
}

// An account call on a house that may be none.
pub fn answer_account(
    house: &CHouse,
    model: CModel<'_>,
    records: &mut [CAccount],
    trades: &mut [TradeRow],
    account: u32,
    call: AccountCall,
) -> Answer
    ensures { AccountAnswered (model_meaning model.entry) house.now records.old records.new trades.old trades.new account call result }
{
    let Some(held) = house_of(house) else {
        return Answer::blank(NO_HOUSE);
    };
    let mut kept = held;
    let named = NamedCall { account, call };
    match answer_rows(&mut kept, model, records, trades, Call::Account(named)) {
        Reply::Account(said) => said,
        // It cannot come: an account call has an account reply.
        Reply::Market(_) => Answer::blank(NO_HOUSE),
    }
}

// A market call on a house that may be none. Only an accepted one is written back.
pub fn answer_market(
    house: &mut CHouse,
    model: CModel<'_>,
    records: &mut [CAccount],
    trades: &mut [TradeRow],
    call: MarketCall,
) -> MarketAnswer
    ensures { MarketAnswered (model_meaning model.entry) house.old house.new records.old records.new trades.old trades.new call result }
{
    let Some(held) = house_of(house) else {
        return MarketAnswer::blank(NO_HOUSE);
    };
    let mut kept = held;
    match answer_rows(&mut kept, model, records, trades, Call::Market(call)) {
        Reply::Market(said) => {
            if said.number == 0 {
                *house = house_numbers(&kept);
            }
            said
        }
        // It cannot come, either.
        Reply::Account(_) => MarketAnswer::blank(NO_HOUSE),
    }
}
