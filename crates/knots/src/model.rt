// The layout of a knot model: 48 cells a set, 12 knots for each of 4 benchmarks. Rates, tick values and
// shocks are interpolated between the knots.
ghost use Rattle.std.specs.Prelude.{◌≡◌, ◌<◌, refl};
ghost use Rattle.knots.specs.KnotLaw.{ByKnots};
ghost use Rattle.knots.specs.KnotTable.{row_at, size_at, change_at, knot_table};
ghost use Rattle.knots.specs.KnotTableLaws.{knot_table_lawful};
ghost use Rattle.knots.specs.KnotLaws.{by_knots};

use super::interpolation::change_of;
use super::rows::{changes, number, shock};
use models::laid::LaidOut;
use models::layout::Layout;
use models::numbers::Numbers;

#[derive(Clone, Copy)]
pub struct KnotLayout;

// The caller's tables of numbers at the knots, borrowed.
pub type KnotModel<'a> = LaidOut<Numbers<'a>, KnotLayout>;

// The place of a benchmark's first knot.
fn row(set: u32, benchmark: u32) -> usize
    requires { (set < 8) × (benchmark < 4) }
    ensures { result ≡ row_at set benchmark }
{
    ((set * 4 + benchmark) * 12) as usize
}

impl Layout for KnotLayout {
    ghost CELLS = { 48 };

    const CELLS: u32 = 48;

    ghost LIMIT = { 20000 };

    const LIMIT: u32 = 20_000;

    ghost number_at = { size_at };

    ghost change_at = { change_at };

    ghost Keeps = { λ t m. (m ≡ knot_table t) × ByKnots t m };

    ghost kept = { λ t. (refl, by_knots t) };

    ghost lawful = { knot_table_lawful };

    fn number(numbers: &[u32], set: u32, benchmark: u32, residual: u32) -> u32 {
        number(numbers, row(set, benchmark), residual)
    }

    fn change(numbers: Numbers<'_>, set: u32, benchmark: u32, residual: u32, scenario: u32) -> i32 {
        let base = row(set, benchmark);
        let tick = number(numbers.ticks, base, residual);
        let moved = shock(
            numbers.changes,
            base,
            numbers.scenarios as usize,
            scenario as usize,
            residual,
        );
        change_of(tick, moved)
    }

    // They lie in no table: they are worked out.
    fn changes<'a>(
        numbers: Numbers<'a>,
        set: u32,
        benchmark: u32,
        residual: u32,
        room: &mut [i32],
    ) -> Option<&'a [i32]> {
        let tick = Self::number(numbers.ticks, set, benchmark, residual);
        changes(
            numbers.changes,
            row(set, benchmark),
            numbers.scenarios as usize,
            tick,
            residual,
            room,
        );
        None
    }
}
