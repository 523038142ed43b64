// Makes models of numbers of which nothing is known.
ghost use Rattle.std.specs.Prelude.{◌≡◌, ◌+◌, ◌≤◌, MatchResult};
ghost use Rattle.models.specs.Laid.{laid_out};
ghost use Rattle.models.specs.Refusals.{Refused, Unjoinable};
ghost use Rattle.models.specs.Sound.{Sound};
ghost use Rattle.owned.specs.Any.{single_of};

use super::any::SingleModel;
use models::check::{check, check_joined};
use models::joined::Joined;
use models::laid::LaidOut;
use models::layout::Layout;
use models::model::MarginModel;
use models::numbers::Lend;
use models::refusal::MakingRefusal;

// The model of these numbers in that layout, or why they make none.
pub fn make<N: Lend + Drop, L: Layout>(numbers: N) -> Result<LaidOut<N, L>, MakingRefusal>
    ensures { MatchResult result (λ m. Sound L.CELLS L.LIMIT (N.tables numbers) × (m.sound.numbers ≡ numbers) × L.Keeps (N.tables numbers) (laid_out L.number_at L.change_at (N.tables m.sound.numbers))) (λ e. Refused L.CELLS L.LIMIT (N.tables numbers) e) }
{
    Ok(LaidOut::new(check(numbers)?))
}

// Two models joined with no scenario left out, or why they are not.
pub fn join(
    first: SingleModel,
    second: SingleModel,
) -> Result<Joined<SingleModel, SingleModel>, MakingRefusal>
    ensures { MatchResult result (λ j. (j.first ≡ first) × (j.second ≡ second) × ((single_of first).scenarios + (single_of second).scenarios ≤ 1000)) (λ e. Unjoinable (single_of first).scenarios (single_of second).scenarios e) }
{
    check_joined(first.scenarios(), second.scenarios())?;
    Ok(Joined::new(first, second))
}
