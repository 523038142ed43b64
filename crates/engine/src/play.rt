// A house opened, and a list of calls played on it.
ghost use Rattle.std.specs.Prelude.{◌≡◌};
ghost use Rattle.engine.specs.Promises.{PlaysDay};

use super::replay::replay;
use models::model::MarginModel;
use opening::opening::open_house;
use refusals::refusal::Refusal;
use rules::call::{Event, Reply};
use rules::house::House;
use tables::row::{AccountRow, TradeRow};

// Opens the house that the caller holds, and plays as many of the events as there is room for their replies. Gives how many they
// are, or why the opening is refused: then everything is as it was.
pub fn play<M: MarginModel>(
    house: &mut House,
    model: &M,
    accounts: u32,
    month: u16,
    records: &mut [AccountRow],
    trades: &mut [TradeRow],
    events: &[Event],
    answers: &mut [Reply],
) -> Result<usize, Refusal>
    ensures { PlaysDay (M.meaning model.now) month accounts house.old.market.state house.new.market.state house.old.accounts house.new.accounts records.old records.new trades.old trades.new events.now answers.old answers.new result }
{
    open_house(house, accounts, month, records, trades)?;
    Ok(replay(house, model, records, trades, events, answers))
}
