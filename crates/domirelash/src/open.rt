// The opening of a house in the caller's memory, whatever stands there.
ghost use Rattle.std.specs.Prelude.{◌≡◌};
ghost use Rattle.refusals.specs.Refusals.{first_no, result_number};
ghost use Rattle.rules.specs.Opening.{opening_questions};
ghost use Rattle.crows.specs.Rows.{accounts_of};
ghost use Rattle.ccalls.specs.Opening.{Opens};

use ccalls::open::open;
use crows::row::{CAccount, CHouse};
use tables::row::TradeRow;

// 0, or the number of the refusal: then nothing is written.
#[unsafe(no_mangle)]
pub extern "C" fn domirelash_open(
    house: &mut CHouse,
    accounts: u32,
    month: u16,
    records: &mut [CAccount],
    trades: &mut [TradeRow],
) -> u8
    ensures number { result ≡ result_number (first_no (opening_questions accounts month (accounts_of records.old) trades.old)) }
    ensures opens { Opens accounts month house.old house.new records.old records.new trades.old trades.new (first_no (opening_questions accounts month (accounts_of records.old) trades.old)) }
{
    open(house, accounts, month, records, trades)
}
