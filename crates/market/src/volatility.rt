// The volatility check: the optional ratio, and the per cent that it gives.
ghost use Rattle.std.specs.Prelude.{◌≡◌, ◌≤◌, count_by, nat_lt};
ghost use Rattle.std.specs.List.{zip};
ghost use Rattle.market.specs.Volatility.{exceeds, exceeding, tenths_of, charged, RatioFound};

use super::state::Thresholds;
use std::array::from_fn;
use tail::keeper::kth_highest;
use tail::ratio::Ratio;

// How many of the five returns exceed their triggers.
fn count_exceeding(triggers: &[u32], returns: &[u32]) -> usize
    ensures { result ≡ count_by (λ p. nat_lt p.0 p.1) (zip triggers.now returns.now) }
{
    triggers
        .iter()
        .zip(returns)
        .filter(|(trigger, value)| trigger < value)
        .count()
}

// The highest of the five ratios, where at least two returns exceed their triggers.
pub fn highest_ratio(thresholds: &Thresholds, returns: [u32; 5]) -> Option<Ratio>
    ensures { RatioFound thresholds.now.triggers returns result }
{
    let triggers = thresholds.triggers;
    if count_exceeding(&triggers, &returns) < 2 {
        return None;
    }
    let ratios: [Ratio; 5] = from_fn(|i| Ratio::new(returns[i], triggers[i]));
    let mut places = [Ratio::new(0, 1)];
    kth_highest(&ratios, &mut places)
}

// The per cent that a ratio gives, in tenths.
pub fn volatility_tenths(ratio: Ratio) -> u32
    ensures value { result ≡ tenths_of ratio.num ratio.den }
    ensures bound { result ≤ 1000 }
{
    let fives = (20 * ratio.num() as u64).div_ceil(ratio.den() as u64);
    (5 * (5 * fives).saturating_sub(100)).min(1000) as u32
}

// The per cent that a check gives, in tenths: 0 where there is no ratio.
pub fn check_tenths(thresholds: &Thresholds, returns: [u32; 5]) -> u32
    ensures value { result ≡ charged thresholds.now.triggers returns }
    ensures bound { result ≤ 1000 }
{
    highest_ratio(thresholds, returns).map_or(0, volatility_tenths)
}
