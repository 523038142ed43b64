// The checks before a making. What passes one makes a model that nothing refuses.
ghost use Rattle.std.specs.Prelude.{◌≡◌, ◌+◌, ◌*◌, ◌≤◌, Decides, IfOk, MatchOption, MatchResult, not, position};
ghost use Rattle.models.specs.Lent.{lent};
ghost use Rattle.models.specs.Refusals.{Checked, OnlyChecked, outcome, Unjoinable};
ghost use Rattle.models.specs.Sound.{Counts, Lengths, marks, Ranges, FirstOut};

use super::layout::Layout;
use super::numbers::{Lend, Numbers};
use super::refusal::MakingRefusal;
use super::sound::SoundNumbers;
use std::marker::PhantomData;

// The place of the first mark of a number that is out of range.
fn first_mark(numbers: Numbers, limit: u32) -> Option<usize>
    ensures { result ≡ position (λ fits. not fits) (marks limit (lent numbers.entry)) }
{
    let changes = numbers.changes.iter().map(|x| x.unsigned_abs() <= limit);
    let ticks = numbers.ticks.iter().map(|x| *x <= 100_000);
    let rates = numbers.rates.iter().map(|x| *x <= 200_000);
    rates.chain(ticks.chain(changes)).position(|fits| !fits)
}

// The first place, counted through the three tables, whose number is out of range.
fn first_out(numbers: Numbers, limit: u32) -> Option<usize>
    ensures { MatchOption result (Ranges limit (lent numbers.entry)) (λ i. FirstOut limit (lent numbers.entry) i) }
{
    first_mark(numbers, limit)
}

// Whether a model may have so many sets and scenarios.
pub fn counts_fit(sets: u32, scenarios: u32) -> bool
    ensures { Decides result (Counts sets scenarios) }
{
    (1..=8).contains(&sets) && (1..=1000).contains(&scenarios)
}

// How many numbers the last table has.
fn volume(cells: u32, sets: u32, scenarios: u32) -> usize
    requires { Counts sets scenarios }
    ensures { result ≡ cells * sets * scenarios }
{
    cells as usize * sets as usize * scenarios as usize
}

// Whether the tables are as long as the counts ask. The length of the first two is one product, written here, in `volume`
// and where a model's text is read.
fn lengths_fit(cells: u32, numbers: Numbers) -> bool
    requires { Counts numbers.sets numbers.scenarios }
    ensures { Decides result (Lengths cells (lent numbers.entry)) }
{
    let size = cells as usize * numbers.sets as usize;
    numbers.rates.len() == size
        && numbers.ticks.len() == size
        && numbers.changes.len() == volume(cells, numbers.sets, numbers.scenarios)
}

// Whether numbers make a model that has `cells` cells a set, and in its last table no number further
// than `limit` from 0.
pub fn check_numbers(cells: u32, limit: u32, numbers: Numbers) -> Result<(), MakingRefusal>
    ensures answer { Checked cells limit (lent numbers.entry) result }
    ensures only { OnlyChecked cells limit (lent numbers.entry) result }
{
    if !counts_fit(numbers.sets, numbers.scenarios) {
        return Err(MakingRefusal::WrongCounts);
    }
    if !lengths_fit(cells, numbers) {
        return Err(MakingRefusal::WrongLengths);
    }
    match first_out(numbers, limit) {
        Some(place) => Err(MakingRefusal::OutOfRange(place)),
        None => Ok(()),
    }
}

// The same numbers, known to make a model of that layout, or why they make none.
pub fn check<N: Lend + Drop, L: Layout>(numbers: N) -> Result<SoundNumbers<N, L>, MakingRefusal>
    ensures answer { Checked L.CELLS L.LIMIT (N.tables numbers) (outcome result) }
    ensures only { OnlyChecked L.CELLS L.LIMIT (N.tables numbers) (outcome result) }
    ensures same { IfOk result (λ s. s.numbers ≡ numbers) }
{
    check_numbers(L::CELLS, L::LIMIT, numbers.lend())?;
    Ok(SoundNumbers {
        numbers,
        layout: PhantomData,
    })
}

// Whether two models of so many scenarios are joined with none left out.
pub fn check_joined(first: u32, second: u32) -> Result<(), MakingRefusal>
    ensures { MatchResult result (λ _. first + second ≤ 1000) (λ e. Unjoinable first second e) }
{
    if first as u64 + second as u64 <= 1000 {
        Ok(())
    } else {
        Err(MakingRefusal::TooManyScenarios)
    }
}
