// A new month: trades of an earlier maturity go, and the rest close up in order.
ghost use Rattle.std.specs.Prelude.{◌≡◌, ◌+◌, ◌-◌, ◌*◌, ◌<◌, ◌≤◌, true, ◌++◌, map, length, take, replicate, filter, slice_index_or, slice_set};
ghost use Rattle.tables.specs.Books.{book, books_of, places_at, put_places, no_row};
ghost use Rattle.tables.specs.Limits.{no_trade, tables_keep};
ghost use Rattle.rules.specs.MarketCalls.{running, closed_up, matured_out};

use rules::house::House;
use tables::row::{AccountRow, NO_TRADE, TradeRow};

// Moves the trades that go on to the front, in order. Gives how many they are. One index reads ahead of the one that writes, in
// one slice: `retain` wants a `Vec`, and no heap is used here.
fn keep_running(trades: &mut [TradeRow], month: u16) -> usize
    ensures trades { take result trades.new ≡ filter (running month) trades.old }
    ensures bound { result ≤ length trades.old }
    ensures len { length trades.new ≡ length trades.old }
{
    let mut running = 0;
    for i in 0..trades.len() {
        let trade = trades[i];
        if trade.maturity >= month {
            trades[running] = trade;
            running += 1;
        }
    }
    running
}

// Empties the places from one on.
fn clear_from(places: &mut [TradeRow], at: usize)
    requires { at ≤ length places.old }
    ensures { places.new ≡ take at places.old ++ replicate (length places.old - at) no_trade }
{
    places[at..].fill(NO_TRADE);
}

// The places of one account, of which the first `count` hold trades. Gives how many trades are left. The 64 places are a
// slice and no array: they are a part of the caller's table, and an array would be a conversion that can fail.
fn mature_places(places: &mut [TradeRow], count: u8, month: u16) -> u8
    requires { (length places.old ≡ 64) × (count ≤ 64) }
    ensures places { places.new ≡ closed_up (filter (running month) (take count places.old)) }
    ensures value { result ≡ length (filter (running month) (take count places.old)) }
{
    let left = keep_running(&mut places[0..count as usize], month);
    clear_from(places, left);
    left as u8
}

// One account, its record and its places, a slice as in `mature_places`.
fn mature_account(row: &mut AccountRow, places: &mut [TradeRow], month: u16)
    requires { (length places.old ≡ 64) × (row.old.trades ≤ 64) }
    ensures row { row.new ≡ (matured_out month (book row.old places.old)).row }
    ensures places { places.new ≡ (matured_out month (book row.old places.old)).places }
{
    row.trades = mature_places(places, row.trades, month);
}

// Every account. Places by index, since of a `zip` of two lent tables a proof does not learn what was written.
pub(crate) fn mature_all(
    house: &House,
    records: &mut [AccountRow],
    trades: &mut [TradeRow],
    month: u16,
)
    requires { tables_keep house.now.accounts records.old trades.old ≡ true }
    ensures books { books_of records.new trades.new ≡ map (matured_out month) (books_of records.old trades.old) }
    ensures keeps { tables_keep house.now.accounts records.new trades.new ≡ true }
{
    for (i, row) in records.iter_mut().enumerate() {
        let start = 64 * i;
        mature_account(row, &mut trades[start..start + 64], month);
    }
}
