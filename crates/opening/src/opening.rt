// The opening of a house.
ghost use Rattle.std.specs.Prelude.{◌≡◌, ℕ, ◌≤◌, true, List, length, replicate, Ok, OnOk};
ghost use Rattle.tables.specs.Limits.{tables_keep};
ghost use Rattle.refusals.specs.Refusals.{first_no, decided, result_number};
ghost use Rattle.rules.specs.Opening.{opened_market, quiet_family, empty_row, opened_rows, opened_trades, opening_questions};

use market::day::Day;
use market::market::Market;
use market::state::{FamilyState, MarketState};
use refusals::refusal::{Refusal, ask};
use rules::house::House;
use tables::row::{AccountRow, NO_LEVELS, NO_TRADE, SecurityRow, TradeRow};

// Written out and no `Default`: what an opening leaves is told field by field, as in its definitions.
const UNLISTED: SecurityRow = SecurityRow {
    price: 0,
    haircut: 0,
    listed: false,
};

fn family_at_opening() -> FamilyState
    ensures { result ≡ quiet_family }
{
    FamilyState {
        volatility: 0,
        averages: None,
        thresholds: None,
        slot: 0,
        checks: 0,
        calm: true,
    }
}

#[tactic(auto, unfolding(rules::specs::Opening::opened_market))]
fn state_at_opening(month: u16) -> MarketState
    ensures { result ≡ opened_market month }
{
    MarketState {
        day: Day { month, set: 0 },
        percent: 0,
        overnight: family_at_opening(),
        forward: family_at_opening(),
        securities: [UNLISTED; 32],
    }
}

// A record with nothing in it.
#[tactic(auto, unfolding(rules::specs::Opening::empty_row))]
pub fn empty_row() -> AccountRow
    ensures { result ≡ empty_row }
{
    AccountRow {
        cash: 0,
        obligation: 0,
        available: 0,
        shortfall: 0,
        lots: [0; 32],
        overnight: NO_LEVELS,
        forward: NO_LEVELS,
        trades: 0,
        own: false,
        second: false,
    }
}

#[tactic(auto, using(crate::proofs::Opened::market_opens))]
fn market_at_opening(month: u16) -> Market
    requires { month ≤ 1199 }
    ensures { result.state ≡ opened_market month }
{
    Market::new(state_at_opening(month))
}

// A house that was never opened: as one opened with 1 account in month 0.
pub fn unopened() -> House
    ensures accounts { result.accounts ≡ 1 }
    ensures market { result.market.state ≡ opened_market 0 }
{
    House {
        accounts: 1,
        market: market_at_opening(0),
    }
}

// The questions of an opening.
fn ask_opening(
    accounts: u32,
    month: u16,
    records: &[AccountRow],
    trades: &[TradeRow],
) -> Result<(), Refusal>
    ensures { result ≡ first_no (opening_questions accounts month records.now trades.now) }
{
    ask((1..=32).contains(&accounts), Refusal::WrongAccounts)?;
    ask(month <= 1199, Refusal::WrongOpeningMonth)?;
    ask(
        records.len() == accounts as usize && trades.len() == 64 * accounts as usize,
        Refusal::Tables,
    )
}

// An opening whose questions are answered yes.
fn open_now(
    house: &mut House,
    accounts: u32,
    month: u16,
    records: &mut [AccountRow],
    trades: &mut [TradeRow],
)
    requires { first_no (opening_questions accounts month records.old trades.old) ≡ Ok tt }
    ensures accounts { house.new.accounts ≡ accounts }
    ensures market { house.new.market.state ≡ opened_market month }
    ensures rows { records.new ≡ opened_rows accounts }
    ensures trades { trades.new ≡ opened_trades accounts }
    ensures keeps { tables_keep accounts records.new trades.new ≡ true }
{
    records.fill(empty_row());
    trades.fill(NO_TRADE);
    *house = House {
        accounts,
        market: market_at_opening(month),
    };
}

// Opens the house that the caller holds, and empties the caller's tables. A refused opening touches nothing. Accounts and month are
// two numbers of one call: a struct of them would be taken apart at once.
// The two tables come as two slices, and the house is filled in place: a rule of the project, since the caller lends them.
pub fn open_house(
    house: &mut House,
    accounts: u32,
    month: u16,
    records: &mut [AccountRow],
    trades: &mut [TradeRow],
) -> Result<(), Refusal>
    ensures answer { result ≡ first_no (opening_questions accounts month records.old trades.old) }
    ensures accounts { house.new.accounts ≡ decided result accounts (λ e. house.old.accounts) }
    ensures market { house.new.market.state ≡ decided result (opened_market month) (λ e. house.old.market.state) }
    ensures rows { records.new ≡ decided result (opened_rows accounts) (λ e. records.old) }
    ensures trades { trades.new ≡ decided result (opened_trades accounts) (λ e. trades.old) }
    ensures keeps { OnOk result (tables_keep accounts records.new trades.new ≡ true) }
{
    ask_opening(accounts, month, records, trades)?;
    open_now(house, accounts, month, records, trades);
    Ok(())
}

// The same, answered by 0 or the refusal's number. A rule of the project: the opening answers a plain number.
pub fn open(
    house: &mut House,
    accounts: u32,
    month: u16,
    records: &mut [AccountRow],
    trades: &mut [TradeRow],
) -> u8
    ensures number { result ≡ result_number (first_no (opening_questions accounts month records.old trades.old)) }
    ensures accounts { house.new.accounts ≡ decided (first_no (opening_questions accounts month records.old trades.old)) accounts (λ e. house.old.accounts) }
    ensures market { house.new.market.state ≡ decided (first_no (opening_questions accounts month records.old trades.old)) (opened_market month) (λ e. house.old.market.state) }
    ensures rows { records.new ≡ decided (first_no (opening_questions accounts month records.old trades.old)) (opened_rows accounts) (λ e. records.old) }
    ensures trades { trades.new ≡ decided (first_no (opening_questions accounts month records.old trades.old)) (opened_trades accounts) (λ e. trades.old) }
    ensures keeps { result ≡ 0 → tables_keep accounts records.new trades.new ≡ true }
{
    match open_house(house, accounts, month, records, trades) {
        Ok(()) => 0,
        Err(refusal) => refusal.number(),
    }
}
