// The initial margin of the trades of one benchmark, step by step.
ghost use Rattle.std.specs.Prelude.{◌≡◌, ◌*◌, ◌≤◌, length, pos, unsigned_abs};
ghost use Rattle.risk.specs.Initial.{spread_of, band_rate, weight_of, minimum_of, stepped_up};

use super::trade::Trade;
use market::day::Day;
use tables::codes::Side;
use tables::standing::StandingTrades;

// The residuals at which the first two bands end, and what each band's lakh counts, in paise.
const BAND_ENDS: [u32; 2] = [36, 60];

const BAND_RATES: [i32; 3] = [50_000, 100_000, 175_000];

// The spread charge: x by residual, z by half-year bucket, y as a whole.
pub(crate) fn spread_charge(x: u64, z: u64, y: u64) -> u64
    requires { (x ≤ 1000000000000000) × (z ≤ 1000000000000000) }
    ensures { result ≡ spread_of x z y }
{
    (2 * x.saturating_sub(z) + z.saturating_sub(y)).div_ceil(10)
}

// What a lakh counts in the minimum margin, by residual.
fn rate_of_band(residual: u32) -> i32
    ensures value { result ≡ pos (band_rate residual) }
    ensures bound { unsigned_abs result ≤ 2000000 }
{
    let band = BAND_ENDS.partition_point(|end| *end < residual);
    BAND_RATES[band]
}

// What a trade adds to the signed sum of the minimum margin.
fn weight(day: Day, trade: Trade) -> i64
    ensures value { result ≡ weight_of day trade.entry.row.now }
    ensures bound { unsigned_abs result ≤ 2000000000000 }
{
    let each = rate_of_band(day.residual(trade.row));
    trade.flow(Side::Receive, each)
}

// The minimum margin of the trades. A `for`: nothing bounds the signed sum of a chain.
#[tactic(auto, unfolding(crate::specs::Initial::minimum_of))]
pub(crate) fn minimum_margin(day: Day, trades: StandingTrades) -> u64
    ensures value { result ≡ minimum_of day trades.entry.trades.now }
    ensures bound { result ≤ 2000000000000 * length trades.entry.trades.now }
{
    let mut sum = 0i64;
    for trade in trades.rows() {
        sum += weight(day, Trade::new(trade));
    }
    sum.unsigned_abs()
}

// A margin, with the step-up in per cent: a share rounded up, as the charges of `margins`, each one `div_ceil`.
pub(crate) fn step_up(percent: u32, base: u64) -> u64
    requires { (percent ≤ 100) × (base ≤ 1000000000000000) }
    ensures value { result ≡ stepped_up percent base }
    ensures bound { result ≤ 2 * base }
{
    base + (base * percent as u64).div_ceil(100)
}
