// Question 1: whether the two tables have the right lengths, and every account keeps its limits.
ghost use Rattle.std.specs.Prelude.{◌≡◌, ◌==◌, ◌&&◌, ◌*◌, ◌<◌, ◌≤◌, length, drop, slice_index_or};
ghost use Rattle.std.specs.List.{list_all};
ghost use Rattle.tables.specs.Books.{book, books_of, places_at, no_row, no_book};
ghost use Rattle.tables.specs.Limits.{is_empty, places_keep, figures_keep, book_keeps, house_keeps, constituent_keeps, tables_keep};

use super::limits::{each_keeps, holdings_keep};
use super::row::{AccountRow, TradeRow};

// The most that the obligation and the shortfall of the house, and of a constituent, may be.
const HOUSE_MOST: u64 = 96_000_000_000_000_000;

const CONSTITUENT_MOST: u64 = 3_000_000_000_000_000;

// The bits that a place sets, its two halves over one another: none exactly where it is empty. Each half is put together as it lies in
// the row, so the compiler reads it at once.
fn bits(place: &TradeRow) -> u64
    ensures { (result == 0) ≡ is_empty place.now }
{
    let first = place.number as u64
        | (place.benchmark as u64) << 32
        | (place.side as u64) << 40
        | (place.maturity as u64) << 48;
    let second = place.notional as u64 | (place.rate as u64) << 32;
    first | second
}

// The bits of all places are gathered, and tested once: a test after each place would take several times as long.
fn all_empty(places: &[TradeRow]) -> bool
    ensures { result ≡ list_all is_empty places.now }
{
    places.iter().fold(0, |all, place| all | bits(place)) == 0
}

// The 64 places are a slice and no array: they are a part of the caller's table, and an array would be a conversion that can fail.
fn places_keep(count: u8, places: &[TradeRow]) -> bool
    requires { length places.now ≡ 64 }
    ensures { result ≡ places_keep count places.now }
{
    let count = count as usize;
    if count > 64 {
        return false;
    }
    each_keeps(&places[0..count]) && all_empty(&places[count..])
}

fn figures_keep(most: u64, row: &AccountRow) -> bool
    ensures { result ≡ figures_keep most row.now }
{
    row.obligation <= most && row.available <= CONSTITUENT_MOST && row.shortfall <= most
}

// The places are a slice, as in `places_keep`.
fn book_keeps(most: u64, row: &AccountRow, places: &[TradeRow]) -> bool
    requires { length places.now ≡ 64 }
    ensures { result ≡ book_keeps most (book row.now places.now) }
{
    holdings_keep(row) && figures_keep(most, row) && places_keep(row.trades, places)
}

// Whether every constituent keeps its limits.
fn constituents_keep(records: &[AccountRow], trades: &[TradeRow]) -> bool
    requires { length trades.now ≡ 64 * length records.now }
    ensures { result ≡ list_all constituent_keeps (books_of records.now trades.now) }
{
    // Tried as one `all`: its closure's need of 64 places in each chunk does not close.
    for (row, places) in records.iter().zip(trades.chunks_exact(64)) {
        if !book_keeps(CONSTITUENT_MOST, row, places) {
            return false;
        }
    }
    true
}

// Whether the house's own account and every constituent keep their limits; true where there is no account.
fn accounts_keep(records: &[AccountRow], trades: &[TradeRow]) -> bool
    requires { length trades.now ≡ 64 * length records.now }
    ensures { result ≡ (house_keeps (slice_index_or (books_of records.now trades.now) 0 no_book) && list_all constituent_keeps (drop 1 (books_of records.now trades.now))) }
{
    match records {
        [] => true,
        [own, constituents @ ..] => {
            let (first, others) = trades.split_at(64);
            book_keeps(HOUSE_MOST, own, first) && constituents_keep(constituents, others)
        }
    }
}

// Question 1, of a house with so many accounts.
pub fn tables_keep(accounts: u32, records: &[AccountRow], trades: &[TradeRow]) -> bool
    ensures { result ≡ tables_keep accounts records.now trades.now }
{
    records.len() == accounts as usize
        && trades.len() == 64 * accounts as usize
        && accounts_keep(records, trades)
}
