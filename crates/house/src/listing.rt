// A list of account calls, answered one after the other.
ghost use Rattle.std.specs.Prelude.{◌≡◌, ◌≤◌, min, length, take, drop};
ghost use Rattle.rules.specs.Runs.{lent_run, answers_run};

use super::account::answer_account;
use models::model::MarginModel;
use rules::call::{Answer, NamedCall};
use rules::house::House;
use tables::row::{AccountRow, TradeRow};

// Answers the calls in turn, as many as there is room for. Gives how many they are: the room is the caller's, since no heap is
// used here. By index, since of a `zip` with an `iter_mut` a proof does not learn what was written.
// `engine::replay` has the same three lines over calls of any kind: a common loop would take the step as an `FnMut` that changes the
// tables, and what a list of such steps leaves as a premise, which is longer than the loop.
pub fn answer_all<M: MarginModel>(
    house: &House,
    model: &M,
    records: &mut [AccountRow],
    trades: &mut [TradeRow],
    calls: &[NamedCall],
    answers: &mut [Answer],
) -> usize
    ensures value { result ≡ min (length calls.now) (length answers.old) }
    ensures answers { take result answers.new ≡ answers_run (M.meaning model.now) house.now.market.state house.now.accounts (records.old, trades.old) (take result calls.now) }
    ensures rest { drop result answers.new ≡ drop result answers.old }
    ensures rows { records.new ≡ (lent_run (M.meaning model.now) house.now.market.state house.now.accounts (records.old, trades.old) (take result calls.now)).0 }
    ensures trades { trades.new ≡ (lent_run (M.meaning model.now) house.now.market.state house.now.accounts (records.old, trades.old) (take result calls.now)).1 }
{
    let count = calls.len().min(answers.len());
    for (i, next) in calls[..count].iter().enumerate() {
        let said = answer_account(house, model, records, trades, next.account, next.call);
        answers[i] = said;
    }
    count
}
