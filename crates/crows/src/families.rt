// The families of callers in C, and back.
ghost use Rattle.std.specs.Prelude.{◌≡◌, true};
ghost use Rattle.crows.specs.Rows.{averages_of, thresholds_of, family_of, family_fits};

use super::row::CFamily;
use market::state::{Averages, FamilyState, Thresholds};

const NO_AVERAGES: Averages = Averages {
    initial: 0,
    gross: 0,
};

const NO_THRESHOLDS: Thresholds = Thresholds {
    triggers: [0; 5],
    calm: [0; 5],
};

fn averages_of(row: &CFamily) -> Option<Averages>
    ensures { result ≡ averages_of row.now }
{
    (row.given == 1 || row.given == 3).then_some(Averages {
        initial: row.initial,
        gross: row.gross,
    })
}

fn thresholds_of(row: &CFamily) -> Option<Thresholds>
    ensures { result ≡ thresholds_of row.now }
{
    let triggers = row.triggers;
    let calm = row.marks;
    (row.given == 2 || row.given == 3).then_some(Thresholds { triggers, calm })
}

pub(crate) fn family_of(row: &CFamily) -> FamilyState
    ensures { result ≡ family_of row.now }
{
    FamilyState {
        volatility: row.volatility,
        averages: averages_of(row),
        thresholds: thresholds_of(row),
        slot: row.slot,
        checks: row.checks,
        calm: row.calm == 1,
    }
}

pub(crate) fn family_fits(row: &CFamily) -> bool
    ensures { result ≡ family_fits row.now }
{
    row.given <= 3 && row.calm <= 1
}

pub(crate) fn family_numbers(family: &FamilyState) -> CFamily
    ensures same { family_of result ≡ family.now }
    ensures fits { family_fits result ≡ true }
{
    let averages = family.averages.unwrap_or(NO_AVERAGES);
    let thresholds = family.thresholds.unwrap_or(NO_THRESHOLDS);
    let first = u8::from(family.averages.is_some());
    let second = 2 * u8::from(family.thresholds.is_some());
    let triggers = thresholds.triggers;
    let marks = thresholds.calm;
    CFamily {
        initial: averages.initial,
        gross: averages.gross,
        volatility: family.volatility,
        triggers,
        marks,
        given: first + second,
        slot: family.slot,
        checks: family.checks,
        calm: u8::from(family.calm),
    }
}
