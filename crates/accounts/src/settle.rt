// Settling: figures, levels and own flag of one account.
ghost use Rattle.std.specs.Prelude.{◌≡◌, ◌+◌, ◌≤◌, true};
ghost use Rattle.tables.specs.Limits.{holdings_keep};
ghost use Rattle.rules.specs.Settling.{settled_row, settled};
ghost use Rattle.accounts.specs.Changing.{book_in, Within};

use super::book::HeldBook;
use super::cover::Cover;
use margins::figures::work::figures;
use margins::flags::own_flag;
use market::market::Market;
use models::model::MarginModel;
use tables::account::Account;
use tables::row::AccountRow;
use tables::standing::StandingTrades;

// A record with its figures, levels and own flag anew, at a cover: none for a constituent. Model, market and cover stay three
// parameters: a call brings its model, the house holds the market, and the tables give the cover.
#[tactic(auto, using(crate::proofs::Keeps::figured_keeps), unfolding(rules::specs::Settling::settled_row))]
pub fn settle<M: MarginModel>(
    model: &M,
    market: &Market,
    cover: Cover,
    account: &Account,
    trades: StandingTrades,
) -> AccountRow
    ensures value { result ≡ settled_row (M.meaning model.now) market.now.state cover.paise account.now.row trades.entry.trades.now }
    ensures keeps { holdings_keep result ≡ true }
    ensures obligation { result.obligation ≤ 3000000000000000 + cover.paise }
    ensures available { result.available ≤ 3000000000000000 }
    ensures shortfall { result.shortfall ≤ 3000000000000000 + cover.paise }
{
    let found = figures(model, market, account, trades);
    let row = account.row();
    let obligation = found.obligation + cover.paise();
    AccountRow {
        obligation,
        available: found.available,
        shortfall: obligation.saturating_sub(found.available),
        overnight: found.overnight.levels,
        forward: found.forward.levels,
        own: own_flag(row.own, obligation, found.available),
        ..row
    }
}

impl HeldBook {
    // The record as it settles, at a cover: none for a constituent.
    pub fn settled_row<M: MarginModel>(
        &self,
        model: &M,
        market: &Market,
        cover: Cover,
    ) -> AccountRow
        ensures value { result ≡ (settled (M.meaning model.now) market.now.state cover.paise (book_in self.now)).row }
        ensures keeps { holdings_keep result ≡ true }
        ensures bound { Within cover.paise result }
    {
        settle(model, market, cover, &self.account(), self.standing())
    }

    // The book as it settles.
    pub fn settled<M: MarginModel>(&self, model: &M, market: &Market, cover: Cover) -> HeldBook
        ensures value { book_in result ≡ settled (M.meaning model.now) market.now.state cover.paise (book_in self.now) }
        ensures bound { Within cover.paise result.row }
    {
        let row = self.settled_row(model, market, cover);
        HeldBook::new(row, self.places())
    }
}
