// The checks before the making of a model: 0, or the number of the refusal. A place that is out of range is written.
ghost use Rattle.std.specs.Prelude.{◌≡◌};
ghost use Rattle.ccalls.specs.Numbers.{tables_of};
ghost use Rattle.ccalls.specs.Making.{MakingAnswered, joining_number};

use ccalls::making::{check_joined, check_laid};
use ccalls::numbers::CNumbers;
use knots::model::KnotLayout;
use models::table::TableLayout;

#[unsafe(no_mangle)]
pub extern "C" fn domirelash_check_table(numbers: CNumbers<'_>, place: &mut usize) -> u32
    ensures { MakingAnswered 484 2000000 (tables_of numbers.entry) place.old place.new result }
{
    check_laid::<TableLayout>(numbers, place)
}

#[unsafe(no_mangle)]
pub extern "C" fn domirelash_check_knots(numbers: CNumbers<'_>, place: &mut usize) -> u32
    ensures { MakingAnswered 48 20000 (tables_of numbers.entry) place.old place.new result }
{
    check_laid::<KnotLayout>(numbers, place)
}

// Of the scenarios of two models.
#[unsafe(no_mangle)]
pub extern "C" fn domirelash_check_joined(first: u32, second: u32) -> u32
    ensures { result ≡ joining_number first second }
{
    check_joined(first, second)
}
