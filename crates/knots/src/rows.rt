// Reads a residual's number out of a row of knots. Numbers and shocks have a reader each: a closure for the place of a knot would
// hide the two reads and no more.
ghost use Rattle.std.specs.Prelude.{◌≡◌, ℕ, ◌+◌, ◌*◌, ◌<◌, ◌≤◌, length, pos, ◌*ℤ◌, slice_index, slice_index_or, unsigned_abs};
ghost use Rattle.knots.specs.Interpolation.{floor};
ghost use Rattle.knots.specs.KnotTable.{number_at, shock_at};

use super::interpolation::{change_of, value};
use super::knots::neighbours;

// A residual's number, in a row of one number for each knot.
pub(crate) fn number(numbers: &[u32], row: usize, residual: u32) -> u32
    requires within { (row + 12 ≤ length numbers.now) × (residual ≤ 120) }
    requires sizes { (k : ℕ) → slice_index numbers.now k ≤ 200000 }
    ensures value { result ≡ unsigned_abs (number_at numbers.now row residual) }
    ensures exact { pos result ≡ number_at numbers.now row residual }
{
    let (p, q) = neighbours(residual);
    let low = numbers[row + p] as i32;
    let high = numbers[row + q] as i32;
    value(low, high, residual, p, q).unsigned_abs()
}

// A residual's shock, in a row of one shock for each knot and scenario.
pub(crate) fn shock(shocks: &[i32], row: usize, runs: usize, scenario: usize, residual: u32) -> i32
    requires within { (row + 12) * runs ≤ length shocks.now }
    requires row { (row ≤ 1000) × (runs ≤ 1000) }
    requires scenario { (scenario < runs) × (residual ≤ 120) }
    requires sizes { (k : ℕ) → unsigned_abs (slice_index_or shocks.now k (pos 0)) ≤ 20000 }
    ensures { result ≡ shock_at shocks.now row runs scenario residual }
{
    let (p, q) = neighbours(residual);
    let low = shocks[(row + p) * runs + scenario];
    let high = shocks[(row + q) * runs + scenario];
    value(low, high, residual, p, q)
}

// What a residual's shocks change at a tick value, in the scenarios from the first on. By the index of `enumerate`, since of a
// `zip` with an `iter_mut` a proof does not learn what was written.
pub(crate) fn changes(
    shocks: &[i32],
    row: usize,
    runs: usize,
    tick: u32,
    residual: u32,
    room: &mut [i32],
)
    requires within { (row + 12) * runs ≤ length shocks.now }
    requires row { (row ≤ 1000) × (runs ≤ 1000) }
    requires scenario { (length room.old ≤ runs) × (residual ≤ 120) }
    requires tick { tick ≤ 100000 }
    requires sizes { (k : ℕ) → unsigned_abs (slice_index_or shocks.now k (pos 0)) ≤ 20000 }
    ensures { (j : ℕ) → j < length room.old → slice_index_or room.new j (pos 0) ≡ floor (pos tick *ℤ shock_at shocks.now row runs j residual) 1000 }
{
    let (p, q) = neighbours(residual);
    let lows = &shocks[(row + p) * runs..][..room.len()];
    let highs = &shocks[(row + q) * runs..][..room.len()];
    for (scenario, change) in room.iter_mut().enumerate() {
        let moved = value(lows[scenario], highs[scenario], residual, p, q);
        *change = change_of(tick, moved);
    }
}
