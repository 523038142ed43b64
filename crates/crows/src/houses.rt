// The house of a caller in C, and back.
ghost use Rattle.std.specs.Prelude.{◌≡◌, true, false, MatchOption};
ghost use Rattle.crows.specs.Rows.{state_of, flags_fit, house_keeps};

use super::families::{family_fits, family_numbers, family_of};
use super::row::CHouse;
use super::securities::{securities_fit, securities_numbers, securities_of};
use market::day::Day;
use market::market::Market;
use market::state::MarketState;
use rules::house::House;

fn state_of(row: &CHouse) -> MarketState
    ensures { result ≡ state_of row.now }
{
    let securities = row.securities;
    MarketState {
        day: Day {
            month: row.month,
            set: row.set,
        },
        percent: row.percent,
        overnight: family_of(&row.overnight),
        forward: family_of(&row.forward),
        securities: securities_of(securities),
    }
}

fn flags_fit(row: &CHouse) -> bool
    ensures { result ≡ flags_fit row.now }
{
    let securities = row.securities;
    family_fits(&row.overnight) && family_fits(&row.forward) && securities_fit(&securities)
}

// The house of a row, or none where a number is out of range.
pub fn house_of(row: &CHouse) -> Option<House>
    ensures { MatchOption result (house_keeps row.now ≡ false) (λ h. (house_keeps row.now ≡ true) × ((h.accounts ≡ row.now.accounts) × (h.market.state ≡ state_of row.now))) }
{
    if !(1..=32).contains(&row.accounts) || !flags_fit(row) {
        return None;
    }
    let market = Market::from_state(state_of(row))?;
    Some(House {
        accounts: row.accounts,
        market,
    })
}

pub fn house_numbers(house: &House) -> CHouse
    ensures accounts { result.accounts ≡ house.now.accounts }
    ensures market { state_of result ≡ house.now.market.state }
    ensures keeps { house_keeps result ≡ true }
{
    let state = house.market.state();
    let securities = state.securities;
    CHouse {
        overnight: family_numbers(&state.overnight),
        forward: family_numbers(&state.forward),
        accounts: house.accounts,
        set: state.day.set,
        percent: state.percent,
        month: state.day.month,
        securities: securities_numbers(securities),
    }
}
