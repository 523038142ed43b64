// Account calls: trade, end, lodge, draw and show.
ghost use Rattle.std.specs.Prelude.{◌≡◌, ◌+◌, ◌*◌, ◌<◌, ◌≤◌, true, length, drop, if◌then◌else◌, nat_eq, slice_index_or, slice_set};
ghost use Rattle.tables.specs.Books.{book, books_of, no_row, places_at, put_places};
ghost use Rattle.tables.specs.Limits.{holdings_keep, places_keep, tables_keep};
ghost use Rattle.refusals.specs.Refusals.{number_of};
ghost use Rattle.rules.specs.Stands.{standing, shortfalls, after_account, rows_of, trades_of, AtRest};
ghost use Rattle.accounts.specs.Changing.{book_in};
ghost use Rattle.rules.specs.Outcomes.{answer_of, blank_answer, restriction_of, account_outcome, account_reply, OthersLeft};

use super::settle::{finish_settling, stored_cover};
use accounts::book::HeldBook;
use accounts::cover::Cover;
use accounts::preview::preview;
use models::model::MarginModel;
use refusals::refusal::Refusal;
use rules::call::{AccountCall, Answer};
use rules::house::House;
use tables::checking::tables_keep;
use tables::row::{AccountRow, NO_TRADE, TradeRow};

// 0 none, 1 own flag, 2 second flag, 3 both: a number, since the answer is a record of the C interface.
fn restriction(row: &AccountRow) -> u8
    ensures { result ≡ restriction_of row.now }
{
    u8::from(row.own) + 2 * u8::from(row.second)
}

// An answer with the figures of a record.
fn answered(number: u8, row: &AccountRow) -> Answer
    ensures { result ≡ answer_of number row.now }
{
    Answer {
        number,
        restriction: restriction(row),
        obligation: row.obligation,
        available: row.available,
        shortfall: row.shortfall,
    }
}

// An answer without figures.
fn refused(refusal: Refusal) -> Answer
    ensures { result ≡ blank_answer (number_of refusal) }
{
    Answer::blank(refusal.number())
}

// An account's record and places, read out of the tables. The places are copied into a blank array: an array from a slice by
// `try_from` could fail, and asks an `unwrap`.
pub(crate) fn read_book(
    house: &House,
    records: &[AccountRow],
    trades: &[TradeRow],
    account: usize,
) -> HeldBook
    requires tables { tables_keep house.now.accounts records.now trades.now ≡ true }
    requires there { account < house.now.accounts }
    ensures { book_in result ≡ book (slice_index_or records.now account no_row) (places_at trades.now account) }
{
    let start = 64 * account;
    let mut places = [NO_TRADE; 64];
    places.copy_from_slice(&trades[start..start + 64]);
    HeldBook::new(records[account], places)
}

// Writes an account's record and places.
fn write_book(records: &mut [AccountRow], trades: &mut [TradeRow], account: usize, held: &HeldBook)
    requires { (account < length records.old) × (64 * account + 64 ≤ length trades.old) }
    ensures rows { records.new ≡ slice_set records.old account held.now.row }
    ensures trades { trades.new ≡ put_places trades.old account held.now.places }
    ensures len { length held.now.places ≡ 64 }
{
    records[account] = held.row();
    let places = held.places();
    let start = 64 * account;
    trades[start..start + 64].copy_from_slice(&places);
}

// The stored cover, which counts for the house alone.
fn cover_for(house: &House, records: &[AccountRow], trades: &[TradeRow], account: usize) -> Cover
    requires { tables_keep house.now.accounts records.now trades.now ≡ true }
    ensures value { result.paise ≡ (if nat_eq account 0 then shortfalls (drop 1 (books_of records.now trades.now)) else 0) }
    ensures bound { result.paise ≤ 93000000000000000 }
{
    if account == 0 {
        stored_cover(house, records, trades)
    } else {
        Cover::none()
    }
}

// A call on an account that is there, on tables that keep their limits. Account and call stand apart, as the calls by name have them.
fn act<M: MarginModel>(
    house: &House,
    model: &M,
    records: &mut [AccountRow],
    trades: &mut [TradeRow],
    account: usize,
    call: AccountCall,
) -> Answer
    requires tables { tables_keep house.now.accounts records.old trades.old ≡ true }
    requires there { account < house.now.accounts }
    ensures answer { result ≡ account_reply (M.meaning model.now) (standing house.now.market.state records.old trades.old) account call }
    ensures rows { records.new ≡ rows_of (after_account (M.meaning model.now) (standing house.now.market.state records.old trades.old) account call) }
    ensures trades { trades.new ≡ trades_of (after_account (M.meaning model.now) (standing house.now.market.state records.old trades.old) account call) }
    ensures keeps { tables_keep house.now.accounts records.new trades.new ≡ true }
    ensures rests { result.number ≡ 0 → AtRest (M.meaning model.now) house.now.market.state records.new trades.new }
    ensures stands { standing house.now.market.state records.new trades.new ≡ after_account (M.meaning model.now) (standing house.now.market.state records.old trades.old) account call }
{
    let held = read_book(house, records, trades, account);
    let cover = cover_for(house, records, trades, account);
    match preview(model, &house.market, account == 0, cover, held, call) {
        Err(refusal) => answered(refusal.number(), &records[account]),
        Ok(tried) => {
            write_book(records, trades, account, &tried);
            finish_settling(model, house, records, trades);
            answered(0, &records[account])
        }
    }
}

// Any account call, with any tables. Account and call stand apart, as in `act`.
pub fn answer_account<M: MarginModel>(
    house: &House,
    model: &M,
    records: &mut [AccountRow],
    trades: &mut [TradeRow],
    account: u32,
    call: AccountCall,
) -> Answer
    ensures answer { result ≡ (account_outcome (M.meaning model.now) house.now.market.state house.now.accounts records.old trades.old account call).answer }
    ensures rows { records.new ≡ (account_outcome (M.meaning model.now) house.now.market.state house.now.accounts records.old trades.old account call).rows }
    ensures trades { trades.new ≡ (account_outcome (M.meaning model.now) house.now.market.state house.now.accounts records.old trades.old account call).trades }
    ensures keeps { tables_keep house.now.accounts records.new trades.new ≡ tables_keep house.now.accounts records.old trades.old }
    ensures rests { result.number ≡ 0 → AtRest (M.meaning model.now) house.now.market.state records.new trades.new }
    // As an event of a list of calls.
    ensures stands { tables_keep house.now.accounts records.old trades.old ≡ true → standing house.now.market.state records.new trades.new ≡ after_account (M.meaning model.now) (standing house.now.market.state records.old trades.old) account call }
    // Every other account keeps its places, a constituent its record but for the second flag, and the house is settled at the cover.
    ensures others { OthersLeft (M.meaning model.now) house.now.market.state house.now.accounts records.old records.new trades.old trades.new account result }
{
    if !tables_keep(house.accounts, records, trades) {
        return refused(Refusal::Tables);
    }
    if account >= house.accounts {
        return refused(Refusal::NoAccount);
    }
    act(house, model, records, trades, account as usize, call)
}
