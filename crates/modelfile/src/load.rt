// Models out of texts.
ghost use Rattle.std.specs.Prelude.{◌≡◌, ◌<◌, length, MatchResult};
ghost use Rattle.owned.specs.Any.{single_of, any_of};
ghost use Rattle.owned.specs.Owned.{owned};
ghost use Rattle.scan.specs.Words.{word_of};
ghost use Rattle.modelfile.specs.declared.refusal.LoadRefusal.TheVariants.{Malformed};
ghost use Rattle.modelfile.specs.Kinds.{meaning_of, SoundOf, RefusedOf};
ghost use Rattle.modelfile.specs.Parts.{means, part_of, Makes, EndsWith};
ghost use Rattle.modelfile.specs.Texts.{One, Second, Two, Gives, UnlessMemory};

use super::kind::Kind;
use super::numbers::NamedNumbers;
use super::read::read_numbers;
use super::refusal::LoadRefusal;
use models::refusal::MakingRefusal;
use owned::any::{AnyModel, SingleModel};
use owned::making;
use scan::scan::Scan;
use std::alloc::Global;

// The model of numbers that were read, or why they make none.
pub fn make(found: NamedNumbers) -> Result<SingleModel, MakingRefusal>
    ensures { MatchResult result (λ s. SoundOf found.kind (owned found.numbers) × (single_of s ≡ meaning_of found.kind (owned found.numbers))) (λ e. RefusedOf found.kind (owned found.numbers) e) }
{
    let NamedNumbers { kind, numbers } = found;
    match kind {
        Kind::Table => Ok(SingleModel::Table(making::make(numbers)?)),
        Kind::Knots => Ok(SingleModel::Knots(making::make(numbers)?)),
    }
}

// The model that stands first in a text.
fn load_single(heap: Global, scan: &mut Scan) -> Result<SingleModel, LoadRefusal>
    ensures { MatchResult result (λ s. Makes (part_of scan.old.rest.now) (single_of s) scan.new.rest.now) (λ e. UnlessMemory e (λ a. EndsWith (part_of scan.old.rest.now) a)) }
{
    let found = read_numbers(heap, scan)?;
    Ok(make(found)?)
}

// Asks that no word is left.
fn end_of_text(scan: &mut Scan) -> Result<(), LoadRefusal>
    ensures { MatchResult result (λ _. length (word_of scan.old.rest.now) ≡ 0) (λ e. (e ≡ Malformed) × (0 < length (word_of scan.old.rest.now))) }
{
    if scan.word().is_empty() {
        Ok(())
    } else {
        Err(LoadRefusal::Malformed)
    }
}

// The model of a text that has one.
fn load_one(heap: Global, scan: &mut Scan) -> Result<AnyModel, LoadRefusal>
    ensures { MatchResult result (λ m. One scan.old.rest.now (means (any_of m))) (λ e. UnlessMemory e (λ a. One scan.old.rest.now a)) }
{
    let model = load_single(heap, scan)?;
    end_of_text(scan)?;
    Ok(AnyModel::One(model))
}

// The model of a text that has one more after `first`.
fn load_second(heap: Global, scan: &mut Scan, first: SingleModel) -> Result<AnyModel, LoadRefusal>
    ensures { MatchResult result (λ m. Second (single_of first) scan.old.rest.now (means (any_of m))) (λ e. UnlessMemory e (λ a. Second (single_of first) scan.old.rest.now a)) }
{
    let second = load_single(heap, scan)?;
    let joined = making::join(first, second)?;
    end_of_text(scan)?;
    Ok(AnyModel::Two(joined))
}

// The model of a text that has two.
fn load_two(heap: Global, scan: &mut Scan) -> Result<AnyModel, LoadRefusal>
    ensures { MatchResult result (λ m. Two scan.old.rest.now (means (any_of m))) (λ e. UnlessMemory e (λ a. Two scan.old.rest.now a)) }
{
    let first = load_single(heap, scan)?;
    load_second(heap, scan, first)
}

// The model that a text describes, or why it gives none.
pub fn load(heap: Global, text: &[u8]) -> Result<AnyModel, LoadRefusal>
    ensures { MatchResult result (λ m. Gives text.now (means (any_of m))) (λ e. UnlessMemory e (λ a. Gives text.now a)) }
{
    let mut scan = Scan::new(text);
    let mut ahead = scan;
    if ahead.word() == "joined".as_bytes() {
        load_two(heap, &mut ahead)
    } else {
        load_one(heap, &mut scan)
    }
}
