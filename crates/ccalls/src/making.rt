// The checks before the making of a model, answered by plain numbers.
ghost use Rattle.std.specs.Prelude.{◌≡◌};
ghost use Rattle.models.specs.Lent.{lent};
ghost use Rattle.ccalls.specs.Numbers.{tables_of};
ghost use Rattle.ccalls.specs.Making.{MakingAnswered, joining_number};

use super::numbers::CNumbers;
use models::check::{check_joined as check_both, check_numbers};
use models::layout::Layout;
use models::numbers::Numbers;

pub(crate) fn lent(numbers: CNumbers<'_>) -> Numbers<'_>
    ensures { lent result ≡ tables_of numbers.entry }
{
    Numbers {
        sets: numbers.sets,
        scenarios: numbers.scenarios,
        rates: numbers.rates,
        ticks: numbers.ticks,
        changes: numbers.changes,
    }
}

// 0, or the number of the refusal. A place that is out of range is written.
pub fn check_laid<L: Layout>(numbers: CNumbers<'_>, place: &mut usize) -> u32
    ensures { MakingAnswered L.CELLS L.LIMIT (tables_of numbers.entry) place.old place.new result }
{
    match check_numbers(L::CELLS, L::LIMIT, lent(numbers)) {
        Ok(()) => 0,
        Err(refusal) => {
            if let Some(at) = refusal.place() {
                *place = at;
            }
            refusal.number()
        }
    }
}

// 0, or the number of the refusal: of the scenarios of two models.
pub fn check_joined(first: u32, second: u32) -> u32
    ensures { result ≡ joining_number first second }
{
    match check_both(first, second) {
        Ok(()) => 0,
        Err(refusal) => refusal.number(),
    }
}
