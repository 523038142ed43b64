// Making an account from a row, and giving the row back.
ghost use Rattle.std.specs.Prelude.{◌≡◌, true, false, MatchOption};
ghost use Rattle.tables.specs.Limits.{holdings_keep};

use super::super::limits::holdings_keep;
use super::super::row::AccountRow;
use super::Account;

impl Account {
    // The making after question 1.
    pub fn new(row: AccountRow) -> Account
        requires { holdings_keep row ≡ true }
        ensures { result.row ≡ row }
    {
        Account { row }
    }

    // None where the holdings are out of range.
    pub fn from_row(row: AccountRow) -> Option<Account>
        ensures { MatchOption result (holdings_keep row ≡ false) (λ a. a.row ≡ row) }
    {
        // `then` would need a closure with a clause on the row, and so is no plainer.
        if holdings_keep(&row) {
            Some(Account { row })
        } else {
            None
        }
    }

    pub fn row(&self) -> AccountRow
        ensures value { result ≡ self.now.row }
        ensures keeps { holdings_keep result ≡ true }
    {
        self.row
    }
}
