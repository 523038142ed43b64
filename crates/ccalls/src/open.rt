// The opening of a house in the caller's memory, whatever stands there.
ghost use Rattle.std.specs.Prelude.{◌≡◌, ◌<◌, ◌≤◌, length, Err};
ghost use Rattle.refusals.specs.Refusals.{first_no, result_number};
ghost use Rattle.rules.specs.Opening.{opening_questions};
ghost use Rattle.crows.specs.Rows.{accounts_of};
ghost use Rattle.ccalls.specs.Opening.{Opens};

use super::rows::{read_accounts, write_accounts};
use crows::houses::house_numbers;
use crows::row::{CAccount, CHouse};
use opening::opening::{empty_row, open_house, unopened};
use refusals::refusal::Refusal;
use tables::row::TradeRow;

// Why no house is opened with more records than any house has. The questions of an opening are asked in `opening` of rows, which so
// many records cannot be read into, so that they are asked here once more.
fn too_many(accounts: u32, month: u16, records: &[CAccount], trades: &[TradeRow]) -> Refusal
    requires { 32 < length records.now }
    ensures { first_no (opening_questions accounts month (accounts_of records.now) trades.now) ≡ Err result }
{
    if !(1..=32).contains(&accounts) {
        Refusal::WrongAccounts
    } else if month > 1199 {
        Refusal::WrongOpeningMonth
    } else {
        Refusal::Tables
    }
}

fn open_fit(
    house: &mut CHouse,
    accounts: u32,
    month: u16,
    records: &mut [CAccount],
    trades: &mut [TradeRow],
) -> Result<(), Refusal>
    requires { length records.old ≤ 32 }
    ensures answer { result ≡ first_no (opening_questions accounts month (accounts_of records.old) trades.old) }
    ensures opens { Opens accounts month house.old house.new records.old records.new trades.old trades.new result }
{
    let mut held = [empty_row(); 32];
    let rows = &mut held[..records.len()];
    read_accounts(records, rows);
    let mut opened = unopened();
    open_house(&mut opened, accounts, month, rows, trades)?;
    write_accounts(rows, records);
    *house = house_numbers(&opened);
    Ok(())
}

// 0, or the number of the refusal: then nothing is written. The two arms are those of `opening::open`, and of the checks of a making:
// one function for them would be generic over the refusal, and longer than what it stands for.
pub fn open(
    house: &mut CHouse,
    accounts: u32,
    month: u16,
    records: &mut [CAccount],
    trades: &mut [TradeRow],
) -> u8
    ensures number { result ≡ result_number (first_no (opening_questions accounts month (accounts_of records.old) trades.old)) }
    ensures opens { Opens accounts month house.old house.new records.old records.new trades.old trades.new (first_no (opening_questions accounts month (accounts_of records.old) trades.old)) }
{
    if records.len() > 32 {
        return too_many(accounts, month, records, trades).number();
    }
    match open_fit(house, accounts, month, records, trades) {
        Ok(()) => 0,
        Err(refusal) => refusal.number(),
    }
}
