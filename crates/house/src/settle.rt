// Settling over the tables: one account; then cover, house and second flags.
ghost use Rattle.std.specs.Prelude.{◌≡◌, ◌+◌, ◌*◌, ◌≤◌, true, false, ◌∷◌, map, length, take, drop, sum_by, slice_index_or};
ghost use Rattle.tables.specs.Books.{books_of, places_at, no_book};
ghost use Rattle.std.specs.List.{All};
ghost use Rattle.tables.specs.Limits.{holdings_keep, places_keep, figures_keep, tables_keep};
ghost use Rattle.rules.specs.Rows.{with_second};
ghost use Rattle.rules.specs.Settling.{settled, house_settled, row_reflagged};
ghost use Rattle.accounts.specs.Changing.{book_in};
ghost use Rattle.rules.specs.Stands.{standing, finish, rows_of, AtRest};

use super::account::read_book;
use accounts::book::HeldBook;
use accounts::cover::Cover;
use margins::flags::second_flag;
use market::market::Market;
use models::model::MarginModel;
use rules::house::House;
use tables::row::{AccountRow, TradeRow};

// The sum of shortfalls.
fn sum_shortfalls(rows: &[AccountRow]) -> u64
    requires few { length rows.now ≤ 31 }
    requires each { All (λ r. r.shortfall ≤ 3000000000000000) rows.now }
    ensures value { result ≡ sum_by (λ q. q.shortfall) rows.now }
    ensures bound { result ≤ 93000000000000000 }
{
    rows.iter().map(|row| row.shortfall).sum()
}

// A record's second flag, at the house's restriction.
fn second_after(restricted: bool, row: &AccountRow) -> bool
    ensures { with_second row.now result ≡ row_reflagged restricted row.now }
{
    second_flag(restricted, row.second, row.obligation, row.available)
}

// Each record's second flag, at the house's restriction.
fn second_flags(restricted: bool, rows: &mut [AccountRow])
    ensures { rows.new ≡ map (row_reflagged restricted) rows.old }
{
    for row in rows.iter_mut() {
        row.second = second_after(restricted, row);
    }
}

// The records but the house's own.
fn constituents(records: &[AccountRow]) -> &[AccountRow]
    requires { 1 ≤ length records.now }
    ensures { result.now ≡ drop 1 records.now }
{
    &records[1..]
}

// The stored cover: the sum of the constituents' shortfalls.
pub(crate) fn stored_cover(house: &House, records: &[AccountRow], trades: &[TradeRow]) -> Cover
    requires { tables_keep house.now.accounts records.now trades.now ≡ true }
    ensures { result.paise ≡ sum_by (λ q. q.shortfall) (drop 1 records.now) }
{
    Cover::of(sum_shortfalls(constituents(records)))
}

// The house's record, settled at the cover. It has no second flag.
fn settle_own<M: MarginModel>(
    model: &M,
    market: &Market,
    cover: Cover,
    held: &HeldBook,
) -> AccountRow
    ensures value { result ≡ (house_settled (M.meaning model.now) market.now.state cover.paise (book_in held.now)).row }
    ensures keeps { holdings_keep result ≡ true }
    ensures figures { figures_keep 96000000000000000 result ≡ true }
{
    AccountRow {
        second: false,
        ..held.settled_row(model, market, cover)
    }
}

// The cover and the house, and then all second flags.
pub(crate) fn finish_settling<M: MarginModel>(
    model: &M,
    house: &House,
    records: &mut [AccountRow],
    trades: &[TradeRow],
)
    requires { tables_keep house.now.accounts records.old trades.now ≡ true }
    ensures rows { records.new ≡ rows_of (finish (M.meaning model.now) (standing house.now.market.state records.old trades.now)) }
    ensures keeps { tables_keep house.now.accounts records.new trades.now ≡ true }
    ensures rests { AtRest (M.meaning model.now) house.now.market.state records.new trades.now }
{
    let cover = stored_cover(house, records, trades);
    let held = read_book(house, records, trades, 0);
    let own = settle_own(model, &house.market, cover, &held);
    records[0] = own;
    second_flags(own.own, &mut records[1..]);
}

// Every constituent.
pub(crate) fn settle_constituents<M: MarginModel>(
    model: &M,
    house: &House,
    records: &mut [AccountRow],
    trades: &[TradeRow],
)
    requires { tables_keep house.now.accounts records.old trades.now ≡ true }
    ensures books { books_of records.new trades.now ≡ (slice_index_or (books_of records.old trades.now) 0 no_book ∷ map (settled (M.meaning model.now) house.now.market.state 0) (drop 1 (books_of records.old trades.now))) }
    ensures keeps { tables_keep house.now.accounts records.new trades.now ≡ true }
{
    // By the account's number: `read_book` takes an account's record and places out of both tables.
    for i in 1..records.len() {
        let held = read_book(house, records, trades, i);
        records[i] = held.settled_row(model, &house.market, Cover::none());
    }
}
