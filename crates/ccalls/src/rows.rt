// The records of callers in C, and back. Functions and no `From`, as in `crows`; the record type is another crate's.
ghost use Rattle.std.specs.Prelude.{◌≡◌, true, length};
ghost use Rattle.std.specs.List.{list_all};
ghost use Rattle.crows.specs.Rows.{account_of, account_fits, accounts_of, accounts_fit, account_numbers};

use crows::row::CAccount;
use tables::row::AccountRow;

fn account_of(row: &CAccount) -> AccountRow
    ensures { result ≡ account_of row.now }
{
    let lots = row.lots;
    AccountRow {
        cash: row.cash,
        obligation: row.obligation,
        available: row.available,
        shortfall: row.shortfall,
        lots,
        overnight: row.overnight,
        forward: row.forward,
        trades: row.trades,
        own: row.own == 1,
        second: row.second == 1,
    }
}

fn account_numbers(row: &AccountRow) -> CAccount
    ensures { result ≡ account_numbers row.now }
{
    let lots = row.lots;
    CAccount {
        cash: row.cash,
        obligation: row.obligation,
        available: row.available,
        shortfall: row.shortfall,
        lots,
        overnight: row.overnight,
        forward: row.forward,
        trades: row.trades,
        own: u8::from(row.own),
        second: u8::from(row.second),
    }
}

fn account_fits(row: &CAccount) -> bool
    ensures { result ≡ account_fits row.now }
{
    row.own <= 1 && row.second <= 1
}

fn all_fit(rows: &[CAccount]) -> bool
    ensures { result ≡ list_all account_fits rows.now }
{
    rows.iter().all(account_fits)
}

// Whether these are records at all: no more than a house may have, and every flag 0 or 1.
pub(crate) fn accounts_fit(rows: &[CAccount]) -> bool
    ensures { result ≡ accounts_fit rows.now }
{
    rows.len() <= 32 && all_fit(rows)
}

// The records that these stand for. By index, since of a `zip` with an `iter_mut` a proof does not learn what was written.
pub(crate) fn read_accounts(from: &[CAccount], into: &mut [AccountRow])
    requires { length into.old ≡ length from.now }
    ensures { into.new ≡ accounts_of from.now }
{
    for (i, row) in from.iter().enumerate() {
        into[i] = account_of(row);
    }
}

// And back.
pub(crate) fn write_accounts(from: &[AccountRow], into: &mut [CAccount])
    requires { length into.old ≡ length from.now }
    ensures rows { accounts_of into.new ≡ from.now }
    ensures fits { list_all account_fits into.new ≡ true }
{
    for (i, row) in from.iter().enumerate() {
        into[i] = account_numbers(row);
    }
}
