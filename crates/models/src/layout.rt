// How the numbers of a model lie in its tables.
ghost use Rattle.std.specs.Prelude.{◌≡◌, ℕ, ◌+◌, ◌*◌, ◌<◌, ◌≤◌, List, length, ℤ, slice_index};
ghost use Rattle.models.specs.Meaning.{Meaning, Lawful};
ghost use Rattle.models.specs.Laid.{laid_out};
ghost use Rattle.models.specs.Sound.{Sound};
ghost use Rattle.models.specs.Tables.{Tables};
ghost use Rattle.models.specs.Lent.{lent};
ghost use Rattle.models.specs.Rows.{Row, LentOrWritten};

use super::numbers::Numbers;

// Set, benchmark and residual stay three numbers, as in `MarginModel`: a value of them would be made at each call and taken apart.
pub trait Layout: Copy {
    // How many rates, tick values, and changes in one scenario, a set has.
    ghost CELLS: { ℕ };

    const CELLS: u32;

    // How far from 0 a number of the last table may be.
    ghost LIMIT: { ℕ };

    const LIMIT: u32;

    // The rate or tick value of a set, benchmark and residual, in its table.
    ghost number_at: { List ℕ → ℕ → ℕ → ℕ → ℕ };

    // The change of a set, benchmark and residual in a scenario.
    ghost change_at: { Tables → ℕ → ℕ → ℕ → ℕ → ℤ };

    // What more is known of the meaning of tables that lie so.
    ghost Keeps: { Tables → Meaning → Type 0 };

    ghost kept: { (t : Tables) → Keeps t (laid_out number_at change_at t) };

    // Sound tables are a lawful model.
    ghost lawful: { (t : Tables) → Sound CELLS LIMIT t → Lawful (laid_out number_at change_at t) };

    // A rate or tick value, read out of its table.
    fn number(numbers: &[u32], set: u32, benchmark: u32, residual: u32) -> u32
        requires cell { (set < 8) × (benchmark < 4) × (residual ≤ 120) }
        requires held { CELLS * (set + 1) ≤ length numbers.now }
        requires sizes { (k : ℕ) → slice_index numbers.now k ≤ 200000 }
        ensures { result ≡ number_at numbers.now set benchmark residual };

    // A change, read out of the tables.
    fn change(numbers: Numbers<'_>, set: u32, benchmark: u32, residual: u32, scenario: u32) -> i32
        requires sound { Sound CELLS LIMIT (lent numbers) }
        requires cell { (set < numbers.sets) × (benchmark < 4) × (residual ≤ 120) }
        requires scenario { scenario < numbers.scenarios }
        ensures { result ≡ change_at (lent numbers.entry) set benchmark residual scenario };

    // The changes in the scenarios from the first on, no more than there are: lent where they lie, else written into `room`.
    fn changes<'a>(
        numbers: Numbers<'a>,
        set: u32,
        benchmark: u32,
        residual: u32,
        room: &mut [i32],
    ) -> Option<&'a [i32]>
        requires sound { Sound CELLS LIMIT (lent numbers) }
        requires cell { (set < numbers.sets) × (benchmark < 4) × (residual ≤ 120) }
        requires scenario { length room.old ≤ numbers.scenarios }
        ensures { LentOrWritten (Row (change_at (lent numbers.entry) set benchmark residual) (length room.old)) result room.new };
}
