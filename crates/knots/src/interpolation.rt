// Numbers between two knots, rounded down.
ghost use Rattle.std.specs.Prelude.{◌≡◌, ◌≤◌, pos, ◌*ℤ◌, unsigned_abs};
ghost use Rattle.knots.specs.Interpolation.{floor, RoundedDown, interpolated, value_at};
ghost use Rattle.knots.specs.Knots.{Neighbours};

use super::knots::KNOTS;

// That many times a number.
fn scaled(count: u32, number: i32) -> i32
    requires { (count ≤ 100000) × (unsigned_abs (pos count *ℤ number) ≤ 2000000000) }
    ensures { result ≡ pos count *ℤ number }
{
    count as i32 * number
}

// The quotient, rounded down.
fn floored(number: i32, by: u32) -> i32
    requires { (1 ≤ by) × (by ≤ 1000) }
    ensures value { result ≡ floor number by }
    ensures down { RoundedDown number by result }
{
    number.div_euclid(by as i32)
}

// From low towards high, that part of the whole, rounded down.
fn interpolate(low: i32, high: i32, part: u32, whole: u32) -> i32
    requires sizes { (unsigned_abs low ≤ 200000) × (unsigned_abs high ≤ 200000) }
    requires parts { (part ≤ whole) × ((1 ≤ whole) × (whole ≤ 120)) }
    ensures { result ≡ interpolated low high part whole }
{
    low + floored(scaled(part, high - low), whole)
}

// The value of a residual whose neighbours are the knots at p and q.
pub(crate) fn value(low: i32, high: i32, residual: u32, p: usize, q: usize) -> i32
    requires sizes { (unsigned_abs low ≤ 200000) × (unsigned_abs high ≤ 200000) }
    requires next { (residual ≤ 120) × (Neighbours residual p q) }
    ensures { result ≡ value_at low high residual p q }
{
    if p == q {
        low
    } else {
        interpolate(low, high, residual - KNOTS[p], KNOTS[q] - KNOTS[p])
    }
}

// What a shock changes at a tick value, in paise: a thousandth of their product, rounded down.
pub(crate) fn change_of(tick: u32, shock: i32) -> i32
    requires { (tick ≤ 100000) × (unsigned_abs shock ≤ 20000) }
    ensures { result ≡ floor (pos tick *ℤ shock) 1000 }
{
    floored(scaled(tick, shock), 1000)
}
