// What an accepted account call changes in a book, before the account settles.
ghost use Rattle.std.specs.Prelude.{◌≡◌, ◌<◌, ◌≤◌, true, slice_set};
ghost use Rattle.tables.specs.Books.{book, standing_of};
ghost use Rattle.tables.specs.Limits.{trade_keeps};
ghost use Rattle.rules.specs.Rows.{with_cash, with_lots};
ghost use Rattle.rules.specs.Changes.{changed, holds};
ghost use Rattle.accounts.specs.Changing.{can_change, new_trade_keeps, book_in};

use super::super::trades::{close_up, find_trade};
use super::HeldBook;
use rules::call::AccountCall;
use tables::row::{AccountRow, TradeRow};

impl HeldBook {
    // With a trade more.
    #[tactic(auto, using(crate::proofs::Steps::held_trades, crate::proofs::Steps::added))]
    fn with_trade(self, trade: TradeRow) -> HeldBook
        requires room { self.row.trades < 64 }
        requires keeps { trade_keeps trade ≡ true }
        ensures { book_in result ≡ changed (AccountCall.Trade trade) (book_in self) }
    {
        let HeldBook { row, mut places } = self;
        places[row.trades as usize] = trade;
        let row = AccountRow {
            trades: row.trades + 1,
            ..row
        };
        HeldBook { row, places }
    }

    // Without the first trade of a number.
    fn without_trade(self, number: u32) -> HeldBook
        requires { holds number (standing_of (book_in self)) ≡ true }
        ensures { book_in result ≡ changed (AccountCall.End number) (book_in self) }
    {
        let at = find_trade(self.standing().rows(), number).unwrap();
        let HeldBook { row, mut places } = self;
        close_up(&mut places, at);
        let row = AccountRow {
            trades: row.trades - 1,
            ..row
        };
        HeldBook { row, places }
    }

    fn with_cash(self, cash: u64) -> HeldBook
        requires { cash ≤ 100000000000000 }
        ensures { book_in result ≡ book (with_cash self.row cash) self.places }
    {
        let HeldBook { row, places } = self;
        let row = AccountRow { cash, ..row };
        HeldBook { row, places }
    }

    // With so many lots of a security.
    #[tactic(auto, using(crate::proofs::Steps::held_lots))]
    fn with_lots(self, security: u32, lots: u32) -> HeldBook
        requires security { security < 32 }
        requires lots { lots ≤ 1000000 }
        ensures { book_in result ≡ book (with_lots self.row (slice_set self.row.lots security lots)) self.places }
    {
        let HeldBook { mut row, places } = self;
        row.lots[security as usize] = lots;
        HeldBook { row, places }
    }

    // The book that a call leaves, before it settles.
    pub(crate) fn change(self, call: AccountCall) -> HeldBook
        requires can { can_change call (book_in self) ≡ true }
        requires keeps { new_trade_keeps call ≡ true }
        ensures { book_in result ≡ changed call (book_in self) }
    {
        match call {
            AccountCall::Trade(trade) => self.with_trade(trade),
            AccountCall::End(number) => self.without_trade(number),
            AccountCall::LodgeCash(amount) => self.with_cash(self.cash() + amount),
            AccountCall::DrawCash(amount) => self.with_cash(self.cash() - amount),
            AccountCall::LodgeSecurity(security, lots) => {
                self.with_lots(security, self.lots(security) + lots)
            }
            AccountCall::DrawSecurity(security, lots) => {
                self.with_lots(security, self.lots(security) - lots)
            }
            AccountCall::Show => self,
        }
    }
}
