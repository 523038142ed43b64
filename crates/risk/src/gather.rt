// The trades of one group, copied one after the other.
ghost use Rattle.std.specs.Prelude.{◌≡◌, ◌≤◌, true, take};
ghost use Rattle.tables.specs.Limits.{trades_stand};
ghost use Rattle.risk.specs.Groups.{group_trades};

use super::grouping::Grouping;
use market::day::Day;
use tables::row::TradeRow;
use tables::standing::StandingTrades;

// Copies the standing trades of a group to the front of `room`, and answers how many they are. They are counted in fixed memory: there
// is no heap.
pub fn gather_standing(
    grouping: Grouping,
    day: Day,
    key: u32,
    trades: StandingTrades,
    room: &mut [TradeRow; 64],
) -> usize
    ensures within { result ≤ 64 }
    ensures stand { trades_stand (take result room.new) ≡ true }
    ensures value { take result room.new ≡ group_trades grouping day key trades.entry.trades.now }
{
    let mut count = 0;
    for trade in trades.rows() {
        if grouping.key(day, trade) == key {
            room[count] = *trade;
            count += 1;
        }
    }
    count
}

// The same, lent where they were copied.
pub fn gather<'a>(
    grouping: Grouping,
    day: Day,
    key: u32,
    trades: StandingTrades,
    room: &'a mut [TradeRow; 64],
) -> StandingTrades<'a>
    ensures { result.trades.now ≡ group_trades grouping day key trades.entry.trades.now }
{
    let count = gather_standing(grouping, day, key, trades, room);
    StandingTrades::new(&room[..count])
}
