// Reading a held book.
ghost use Rattle.std.specs.Prelude.{◌≡◌, ◌<◌, ◌≤◌, slice_index};
ghost use Rattle.tables.specs.Books.{standing_of};
ghost use Rattle.accounts.specs.Changing.{book_in};

use super::HeldBook;
use tables::account::Account;
use tables::standing::StandingTrades;

impl HeldBook {
    pub(crate) fn account(&self) -> Account
        ensures { result.row ≡ self.now.row }
    {
        Account::new(self.row)
    }

    // The trades that stand.
    pub(crate) fn standing(&self) -> StandingTrades<'_>
        ensures { result.trades.now ≡ standing_of (book_in self.now) }
    {
        StandingTrades::new(&self.places[..self.row.trades as usize])
    }

    pub(crate) fn trades(&self) -> u8
        ensures value { result ≡ self.now.row.trades }
        ensures bound { result ≤ 64 }
    {
        self.row.trades
    }

    pub(crate) fn cash(&self) -> u64
        ensures value { result ≡ self.now.row.cash }
        ensures bound { result ≤ 100000000000000 }
    {
        self.row.cash
    }

    // The lots of a security.
    pub(crate) fn lots(&self, security: u32) -> u32
        requires { security < 32 }
        ensures value { result ≡ slice_index self.now.row.lots security }
        ensures bound { result ≤ 1000000 }
    {
        self.row.lots[security as usize]
    }
}
