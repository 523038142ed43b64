// A list of calls, played from where a house stands.
ghost use Rattle.std.specs.Prelude.{◌≡◌, ℕ, ◌≤◌, min, true, length, take, drop};
ghost use Rattle.tables.specs.Limits.{tables_keep};
ghost use Rattle.rules.specs.Stands.{standing};
ghost use Rattle.isolation.specs.Runs.{after, reply, run, replies};
ghost use Rattle.engine.specs.Promises.{HeldBy, Replays};

use super::answer::answer;
use models::model::MarginModel;
use rules::call::{Event, Reply};
use rules::house::House;
use tables::checking::tables_keep;
use tables::row::{AccountRow, TradeRow};

// One event. A call that brings wrong tables brings none: they fail question 1 as any others that do.
fn play_event<M: MarginModel>(
    house: &mut House,
    model: &M,
    records: &mut [AccountRow],
    trades: &mut [TradeRow],
    event: Event,
) -> Reply
    requires { tables_keep house.old.accounts records.old trades.old ≡ true }
    ensures accounts { house.new.accounts ≡ house.old.accounts }
    ensures answer { result ≡ reply (M.meaning model.now) (standing house.old.market.state records.old trades.old) event }
    ensures stands { standing house.new.market.state records.new trades.new ≡ after (M.meaning model.now) (standing house.old.market.state records.old trades.old) event }
    ensures keeps { tables_keep house.new.accounts records.new trades.new ≡ true }
{
    match event {
        Event::RightTables(call) => answer(house, model, records, trades, call),
        Event::WrongTables(call) => answer(house, model, &mut [], &mut [], call),
    }
}

// The events on tables that keep their limits. No loop in common with `house::listing`, which says why. By index, since of a `zip` with
// an `iter_mut` a proof does not learn what was written.
fn play_events<M: MarginModel>(
    house: &mut House,
    model: &M,
    records: &mut [AccountRow],
    trades: &mut [TradeRow],
    events: &[Event],
    answers: &mut [Reply],
) -> usize
    requires { tables_keep house.old.accounts records.old trades.old ≡ true }
    ensures accounts { house.new.accounts ≡ house.old.accounts }
    ensures value { result ≡ min (length events.now) (length answers.old) }
    ensures answers { take result answers.new ≡ replies (M.meaning model.now) (standing house.old.market.state records.old trades.old) (take result events.now) }
    ensures rest { drop result answers.new ≡ drop result answers.old }
    ensures stands { standing house.new.market.state records.new trades.new ≡ run (M.meaning model.now) (standing house.old.market.state records.old trades.old) (take result events.now) }
    ensures keeps { tables_keep house.old.accounts records.new trades.new ≡ true }
    ensures throughout { (i : ℕ) → i ≤ result → HeldBy house.old.accounts (run (M.meaning model.now) (standing house.old.market.state records.old trades.old) (take i events.now)) }
{
    let count = events.len().min(answers.len());
    for (i, event) in events[..count].iter().enumerate() {
        let said = play_event(house, model, records, trades, *event);
        answers[i] = said;
    }
    count
}

// Plays as many of the events as there is room for their replies, and gives how many they are: the room is the caller's, since no
// heap is used here.
// None is played where the tables fail question 1. A list of account calls alone, with their answers, is `house::listing`.
pub fn replay<M: MarginModel>(
    house: &mut House,
    model: &M,
    records: &mut [AccountRow],
    trades: &mut [TradeRow],
    events: &[Event],
    answers: &mut [Reply],
) -> usize
    ensures accounts { house.new.accounts ≡ house.old.accounts }
    ensures replays { Replays (M.meaning model.now) house.old.market.state house.new.market.state house.old.accounts records.old records.new trades.old trades.new events.now answers.old answers.new result }
{
    if !tables_keep(house.accounts, records, trades) {
        return 0;
    }
    play_events(house, model, records, trades, events, answers)
}
