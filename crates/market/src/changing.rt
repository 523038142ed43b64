// What an accepted market call changes in the market state.
ghost use Rattle.std.specs.Prelude.{◌≡◌, ◌<◌, ◌≤◌, true, ◌&&◌, Some};
ghost use Rattle.tables.specs.Limits.{security_keeps};
ghost use Rattle.market.specs.States.{family_state};
ghost use Rattle.market.specs.Calls.{with_family, with_security, with_averages, with_thresholds, quoted, calm_returns, checked, volatility_after_day, closed_family, market_changed, can_change};

use super::call::{Check, MarketCall, Quote};
use super::state::{Averages, FamilyState, MarketState, Thresholds};
use super::volatility::check_tenths;
use tables::codes::Family;
use tables::row::SecurityRow;
use tables::security::Security;

// Whether the day stays calm: it was, and every return is below its calm mark.
fn stays_calm(calm: bool, marks: [u32; 5], returns: [u32; 5]) -> bool
    ensures { result ≡ (calm && calm_returns marks returns) }
{
    calm && returns
        .iter()
        .zip(marks.iter())
        .all(|(value, mark)| value < mark)
}

// A row that takes over a security's price, haircut and listing. A function for one assignment, since a rule of the project lends a
// price call one element of the table.
fn reprice(row: &mut SecurityRow, security: Security)
    ensures { row.new ≡ security.row }
{
    *row = security.row();
}

impl FamilyState {
    // Notes a volatility check, if thresholds are given.
    fn note_check(&mut self, slot: u32, returns: [u32; 5])
        requires { (slot ≤ 4) × (self.old.checks ≤ 4) }
        ensures { self.new ≡ checked slot returns self.old }
    {
        let Some(thresholds) = self.thresholds else {
            return;
        };
        let tenths = check_tenths(&thresholds, returns);
        let calm = stays_calm(self.calm, thresholds.calm, returns);
        self.volatility = self.volatility.max(tenths);
        self.slot = slot as u8;
        self.checks = (self.checks + 1).min(4);
        self.calm = calm;
    }

    // The volatility per cent that is in force after the day: 0 where all four slots were checked and every return was calm.
    fn after_the_day(&self) -> u32
        ensures { result ≡ volatility_after_day self.now }
    {
        if self.checks == 4 && self.calm {
            0
        } else {
            self.volatility
        }
    }

    // The slots begin anew.
    fn close(&mut self)
        ensures { self.new ≡ closed_family self.old }
    {
        self.volatility = self.after_the_day();
        self.slot = 0;
        self.checks = 0;
        self.calm = true;
    }
}

impl MarketState {
    // The end of the day, for both families.
    fn close(&mut self)
        ensures { self.new ≡ market_changed MarketCall.Close self.old }
    {
        self.overnight.close();
        self.forward.close();
    }

    fn price(&mut self, quote: Quote)
        requires { (quote.security < 32) × (security_keeps (quoted quote) ≡ true) }
        ensures { self.new ≡ with_security quote.security (quoted quote) self.old }
    {
        let row = SecurityRow {
            price: quote.price,
            haircut: quote.haircut,
            listed: quote.listed == 1,
        };
        if let Some(security) = Security::from_row(row) {
            reprice(&mut self.securities[quote.security as usize], security);
        }
    }

    fn give_averages(&mut self, family: Family, averages: Averages)
        ensures { self.new ≡ with_family family (with_averages averages (family_state self.old family)) self.old }
    {
        self.family_mut(family).averages = Some(averages);
    }

    fn give_thresholds(&mut self, family: Family, thresholds: Thresholds)
        ensures { self.new ≡ with_family family (with_thresholds thresholds (family_state self.old family)) self.old }
    {
        self.family_mut(family).thresholds = Some(thresholds);
    }

    fn check(&mut self, family: Family, check: Check)
        requires { (check.slot ≤ 4) × ((family_state self.old family).checks ≤ 4) }
        ensures { self.new ≡ with_family family (checked check.slot check.returns (family_state self.old family)) self.old }
    {
        self.family_mut(family)
            .note_check(check.slot, check.returns);
    }

    // The change of any market call.
    pub(crate) fn change(&mut self, call: MarketCall)
        requires { can_change call self.old ≡ true }
        ensures { self.new ≡ market_changed call self.old }
    {
        match call {
            MarketCall::Set(set) => self.day.set = set,
            MarketCall::Price(quote) => self.price(quote),
            MarketCall::StepUp(percent) => self.percent = percent,
            MarketCall::Averages(family, averages) => {
                self.give_averages(Family::from(family), averages);
            }
            MarketCall::Thresholds(family, thresholds) => {
                self.give_thresholds(Family::from(family), thresholds);
            }
            MarketCall::Volatility(check) => self.check(Family::from(check.family), check),
            MarketCall::Close => self.close(),
            MarketCall::Month(month) => self.day.month = month,
        }
    }
}
