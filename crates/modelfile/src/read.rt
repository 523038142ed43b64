// Reads the numbers of one model, and asks nothing of them but their counts.
ghost use Rattle.std.specs.Prelude.{◌≡◌, ◌*◌, ◌≤◌, ℤ, map, IfOk, MatchResult};
ghost use Rattle.models.specs.Sound.{Counts};
ghost use Rattle.owned.specs.Owned.{owned};
ghost use Rattle.scan.specs.Number.{number_of};
ghost use Rattle.scan.specs.Words.{word_of, after_number};
ghost use Rattle.modelfile.specs.Kinds.{cells_of};
ghost use Rattle.modelfile.specs.Taken.{taken, left, as_size, as_change, size_by};
ghost use Rattle.modelfile.specs.Parts.{stopped, numbers, followed_by, tables_after, part_of};
ghost use Rattle.modelfile.specs.Texts.{UnlessMemory};

use super::kind::Kind;
use super::names::{cells, may_follow};
use super::numbers::NamedNumbers;
use super::refusal::LoadRefusal;
use models::check::counts_fit;
use models::refusal::MakingRefusal;
use owned::owned_model::OwnedNumbers;
use scan::number::{next_number, number};
use scan::scan::Scan;
use std::alloc::{AllocError, Global};

// A number as a table holds it.
trait Hold: Drop {
    ghost held: { ℤ → Self };

    fn hold(n: i128) -> Self
        ensures { result ≡ held n };
}

// As a rate, a tick value or a count. One that does not fit is held as out of range.
impl Hold for u32 {
    ghost held = { as_size };

    fn hold(n: i128) -> u32 {
        u32::try_from(n).unwrap_or(u32::MAX)
    }
}

// As a change or shock. One that does not fit is held as out of range; so is -2^31, which `try_from` would keep.
impl Hold for i32 {
    ghost held = { as_change };

    fn hold(n: i128) -> i32 {
        if n.unsigned_abs() <= 2_147_483_647 {
            n as i32
        } else {
            i32::MAX
        }
    }
}

// The next word as a count, if it is a number.
fn next_count(scan: &mut Scan) -> Option<u32>
    ensures value { result ≡ size_by (number_of (word_of scan.old.rest.now)) }
    ensures after { scan.new.rest.now ≡ after_number scan.old.rest.now }
{
    next_number(scan).map(u32::hold)
}

// The numbers that come next, at most so many, as a table holds them.
fn next_numbers<T: Hold>(heap: Global, scan: &mut Scan, most: usize) -> Result<Vec<T>, AllocError>
    ensures { IfOk result (λ v. (v.items ≡ map T.held (taken most scan.old.rest.now)) × (scan.new.rest.now ≡ left most scan.old.rest.now)) }
{
    let mut found = Vec::with_capacity(heap, most)?;
    while found.len() < most
        && let Some(n) = next_number(scan)
    {
        found.push(T::hold(n))?;
    }
    Ok(found)
}

// What stands before the tables of a model: its kind and counts.
#[derive(Clone, Copy)]
struct Head {
    kind: Kind,
    sets: u32,
    scenarios: u32,
    ghost fit: { Counts sets scenarios },
}

impl Head {
    // How many numbers the first two tables have each, and the last.
    fn sizes(self) -> (usize, usize)
        ensures { (result.0 ≡ cells_of self.kind * self.sets) × (result.1 ≡ cells_of self.kind * self.sets * self.scenarios) }
    {
        let size = cells(self.kind) * self.sets;
        (size as usize, (size * self.scenarios) as usize)
    }
}

// The kind and counts of the model that stands first in a text, or why there are none.
fn read_head(scan: &mut Scan) -> Result<Head, LoadRefusal>
    ensures { MatchResult result (λ h. part_of scan.old.rest.now ≡ tables_after h.kind h.sets h.scenarios scan.new.rest.now) (λ e. UnlessMemory e (λ a. part_of scan.old.rest.now ≡ stopped a)) }
{
    let kind = Kind::try_from(scan.word())?;
    let sets = next_count(scan).ok_or(LoadRefusal::Malformed)?;
    let scenarios = next_count(scan).ok_or(LoadRefusal::Malformed)?;
    if !counts_fit(sets, scenarios) {
        return Err(MakingRefusal::WrongCounts.into());
    }
    Ok(Head {
        kind,
        sets,
        scenarios,
    })
}

// The three tables after a head, which may be too short.
fn next_tables(heap: Global, scan: &mut Scan, head: Head) -> Result<OwnedNumbers, AllocError>
    ensures { IfOk result (λ n. tables_after head.kind head.sets head.scenarios scan.old.rest.now ≡ followed_by scan.new.rest.now (numbers head.kind (owned n) scan.new.rest.now)) }
{
    let (size, volume) = head.sizes();
    let rates = next_numbers(heap, scan, size)?;
    let ticks = next_numbers(heap, scan, size)?;
    let changes = next_numbers(heap, scan, volume)?;
    Ok(OwnedNumbers {
        sets: head.sets,
        scenarios: head.scenarios,
        rates,
        ticks,
        changes,
    })
}

// The same, if what follows them may stand there.
fn read_tables(heap: Global, scan: &mut Scan, head: Head) -> Result<NamedNumbers, LoadRefusal>
    ensures { MatchResult result (λ n. tables_after head.kind head.sets head.scenarios scan.old.rest.now ≡ numbers n.kind (owned n.numbers) scan.new.rest.now) (λ e. UnlessMemory e (λ a. tables_after head.kind head.sets head.scenarios scan.old.rest.now ≡ stopped a)) }
{
    let numbers = next_tables(heap, scan, head)?;
    let mut ahead = *scan;
    let word = ahead.word();
    if number(word).is_some() {
        return Err(MakingRefusal::WrongLengths.into());
    }
    if !may_follow(word) {
        return Err(LoadRefusal::Malformed);
    }
    Ok(NamedNumbers {
        kind: head.kind,
        numbers,
    })
}

// The numbers of the model that stands first in a text, or why there are none.
pub fn read_numbers(heap: Global, scan: &mut Scan) -> Result<NamedNumbers, LoadRefusal>
    ensures { MatchResult result (λ n. part_of scan.old.rest.now ≡ numbers n.kind (owned n.numbers) scan.new.rest.now) (λ e. UnlessMemory e (λ a. part_of scan.old.rest.now ≡ stopped a)) }
{
    let head = read_head(scan)?;
    read_tables(heap, scan, head)
}
