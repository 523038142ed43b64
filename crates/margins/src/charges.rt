// Concentration levels, and the charges on a family's initial margin.
ghost use Rattle.std.specs.Prelude.{◌≡◌, ◌≤◌};
ghost use Rattle.margins.specs.Charges.{level_of, levels_of, level_percent, concentration_of, volatility_of};

use market::state::Averages;
use tables::row::{Levels, NO_LEVELS};

// The level after a value and its published average are known. It is a number, as in the rows that C callers lend.
pub fn next_level(level: u8, value: u64, average: u64) -> u8
    ensures value { result ≡ level_of level value average }
    ensures bound { result ≤ 2 }
{
    let part = 100 * value as u128;
    let average = average as u128;
    if part > 15 * average {
        2
    } else if level == 2 && part >= 13 * average {
        2
    } else if level >= 1 {
        if part >= 6 * average { 1 } else { 0 }
    } else if part > 8 * average {
        1
    } else {
        0
    }
}

// The levels of a family at its initial margin and its gross notional.
pub fn next_levels(averages: Option<Averages>, levels: Levels, initial: u64, gross: u64) -> Levels
    ensures value { result ≡ levels_of averages levels initial gross }
    ensures bound { (result.initial ≤ 2) × (result.gross ≤ 2) }
{
    match averages {
        None => NO_LEVELS,
        Some(given) => Levels {
            initial: next_level(levels.initial, initial, given.initial),
            gross: next_level(levels.gross, gross, given.gross),
        },
    }
}

// What a level charges, in per cent.
fn percent_of_level(level: u8) -> u64
    ensures value { result ≡ level_percent level }
    ensures bound { result ≤ 20 }
{
    match level {
        2 => 20,
        1 => 15,
        _ => 0,
    }
}

// What the higher of two levels charges, of any initial margin: of its whole hundreds first, so that 64 bits hold every product.
pub fn concentration_charge(initial: u64, levels: Levels) -> u64
    ensures value { result ≡ concentration_of initial levels }
    ensures bound { result ≤ initial }
{
    let percent = percent_of_level(levels.initial.max(levels.gross));
    initial / 100 * percent + (initial % 100 * percent).div_ceil(100)
}

// The volatility margin, at a per cent in tenths. This share and the one of the step-up are each one `div_ceil`: a function of amount,
// part and whole for them would be longer than what it stands for.
pub(crate) fn volatility_margin(initial: u64, tenths: u32) -> u64
    requires initial { initial ≤ 1000000000000000 }
    requires tenths { tenths ≤ 1000 }
    ensures value { result ≡ volatility_of initial tenths }
    ensures bound { result ≤ initial }
{
    (initial * tenths as u64).div_ceil(1000)
}
