// A model's file: `table S N` or `knot S N`, and then the numbers of its tables in their order.
use anyhow::{Context, anyhow};
use owned::owned_model::OwnedNumbers;
use std::alloc::Global;

fn count(word: Option<&str>) -> anyhow::Result<u32> {
    Ok(word.context("a model's file lacks its counts")?.parse()?)
}

// Reads a model's file, and stops at the first word that is no number of its width: crate `modelfile` holds such a number as out of
// range instead, and tells its place. A set has `cells` rates and as many tick values; what follows them are the changes or shocks.
pub fn read_model(
    heap: Global,
    text: &str,
    kind: &str,
    cells: usize,
) -> anyhow::Result<OwnedNumbers> {
    let mut words = text.split_whitespace();
    match words.next() {
        Some(first) if first == kind => {}
        _ => return Err(anyhow!("a model's file begins with another word")),
    }
    let sets = count(words.next())?;
    let scenarios = count(words.next())?;
    let size = cells.saturating_mul(sets as usize);
    let mut rates: Vec<u32> = Vec::new(heap);
    let mut ticks: Vec<u32> = Vec::new(heap);
    let mut changes: Vec<i32> = Vec::new(heap);
    for word in words {
        if rates.len() < size {
            rates.push(word.parse::<u32>()?)?;
        } else if ticks.len() < size {
            ticks.push(word.parse::<u32>()?)?;
        } else {
            changes.push(word.parse::<i32>()?)?;
        }
    }
    Ok(OwnedNumbers {
        sets,
        scenarios,
        rates,
        ticks,
        changes,
    })
}
