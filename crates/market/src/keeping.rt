// Whether a market state keeps its limits.
ghost use Rattle.std.specs.Prelude.{◌≡◌};
ghost use Rattle.std.specs.List.{list_all, zip};
ghost use Rattle.market.specs.States.{average_keeps, averages_keep, mark_keeps, marks_keep, thresholds_keep, family_keeps, market_keeps};

use super::state::{Averages, FamilyState, MarketState, Thresholds};
use tables::limits::securities_keep;

fn average_keeps(average: u64) -> bool
    ensures { result ≡ average_keeps average }
{
    (1..=10_000_000_000_000_000).contains(&average)
}

pub(crate) fn averages_keep(averages: Option<Averages>) -> bool
    ensures { result ≡ averages_keep averages }
{
    averages.is_none_or(|given| average_keeps(given.initial) && average_keeps(given.gross))
}

fn mark_keeps(trigger: u32, calm: u32) -> bool
    ensures { result ≡ mark_keeps trigger calm }
{
    1 <= calm && calm <= trigger && trigger <= 1_000_000
}

fn marks_keep(triggers: &[u32], calm: &[u32]) -> bool
    ensures { result ≡ list_all (λ p. mark_keeps p.0 p.1) (zip triggers.now calm.now) }
{
    triggers
        .iter()
        .zip(calm)
        .all(|(trigger, mark)| mark_keeps(*trigger, *mark))
}

pub(crate) fn thresholds_keep(thresholds: Option<Thresholds>) -> bool
    ensures { result ≡ thresholds_keep thresholds }
{
    thresholds.is_none_or(|given| marks_keep(&given.triggers, &given.calm))
}

fn family_keeps(family: &FamilyState) -> bool
    ensures { result ≡ family_keeps family.now }
{
    family.volatility <= 1000
        && family.slot <= 4
        && family.checks <= 4
        && averages_keep(family.averages)
        && thresholds_keep(family.thresholds)
}

// Whether every number of a market state is in range.
pub fn market_keeps(state: &MarketState) -> bool
    ensures { result ≡ market_keeps state.now }
{
    state.day.month <= 1199
        && state.percent <= 100
        && family_keeps(&state.overnight)
        && family_keeps(&state.forward)
        && securities_keep(&state.securities)
}
