// The layout of a table model: 484 cells a set, 121 residuals for each of 4 benchmarks.
ghost use Rattle.std.specs.Prelude.{◌≡◌, ◌<◌, refl};
ghost use Rattle.models.specs.Table.{cell_at, number_at, change_at, table};
ghost use Rattle.models.specs.TableLaws.{table_lawful};

use super::laid::LaidOut;
use super::layout::Layout;
use super::numbers::Numbers;

#[derive(Clone, Copy)]
pub struct TableLayout;

// The caller's tables of rates, tick values and changes, borrowed.
pub type TableModel<'a> = LaidOut<Numbers<'a>, TableLayout>;

// The place of a set's benchmark and residual among the rates, and among the tick values.
fn place(set: u32, benchmark: u32, residual: u32) -> usize
    requires { (set < 8) × ((benchmark < 4) × (residual < 121)) }
    ensures { result ≡ cell_at set benchmark residual }
{
    ((set * 4 + benchmark) * 121 + residual) as usize
}

impl Layout for TableLayout {
    ghost CELLS = { 484 };

    const CELLS: u32 = 484;

    ghost LIMIT = { 2000000 };

    const LIMIT: u32 = 2_000_000;

    ghost number_at = { number_at };

    ghost change_at = { change_at };

    ghost Keeps = { λ t m. m ≡ table t };

    ghost kept = { λ t. refl };

    ghost lawful = { table_lawful };

    fn number(numbers: &[u32], set: u32, benchmark: u32, residual: u32) -> u32 {
        numbers[place(set, benchmark, residual)]
    }

    fn change(numbers: Numbers<'_>, set: u32, benchmark: u32, residual: u32, scenario: u32) -> i32 {
        numbers.changes[place(set, benchmark, residual) * numbers.scenarios as usize
            + scenario as usize]
    }

    fn changes<'a>(
        numbers: Numbers<'a>,
        set: u32,
        benchmark: u32,
        residual: u32,
        room: &mut [i32],
    ) -> Option<&'a [i32]> {
        let first = place(set, benchmark, residual) * numbers.scenarios as usize;
        Some(&numbers.changes[first..first + room.len()])
    }
}
