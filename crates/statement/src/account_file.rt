// An account's file: one entry to a line, a word and its numbers; `#` begins a comment.
ghost use Rattle.std.specs.Prelude.{◌≡◌, ◌∷◌, false, [], IfOk, OnOk, IsErr};
ghost use Rattle.std.specs.Int.{from_bool};
ghost use Rattle.rules.specs.Opening.{opened_market, empty_row};
ghost use Rattle.statement.specs.Account.{SetsFlags, SetsLots, SetsVolatility, SetsAverages, SetsLevels, SetsSecurity, TradeEntry, AddsTrade, Gives, SetsRestricted, MarketEntry, AccountEntry, Entry};

use anyhow::anyhow;
use market::state::{Averages, MarketState};
use opening::opening::{empty_row, unopened};
use std::alloc::Global;
use std::num::TryFromIntError;
use tables::row::{AccountRow, Levels, SecurityRow, TradeRow};

// The market and the account as the file has them, unchecked.
#[derive(Drop)]
pub struct Input {
    pub state: MarketState,
    pub row: AccountRow,
    pub restricted: bool,
    pub trades: Vec<TradeRow>,
}

impl Input {
    // A market as it opens in month 0, and an account with nothing in it.
    pub fn empty(heap: Global) -> Input
        ensures state { result.state ≡ opened_market 0 }
        ensures row { result.row ≡ empty_row }
        ensures restricted { result.restricted ≡ false }
        ensures trades { result.trades.items ≡ [] }
    {
        Input {
            state: *unopened().market.state(),
            row: empty_row(),
            restricted: false,
            trades: Vec::new(heap),
        }
    }
}

fn unknown<T>() -> anyhow::Result<T>
    ensures { IsErr result }
{
    Err(anyhow!("an account's file has an unknown entry, or one with too few or too many numbers"))
}

fn flag(number: u64) -> anyhow::Result<bool>
    ensures { IfOk result (λ b. number ≡ from_bool b) }
{
    match number {
        0 => Ok(false),
        1 => Ok(true),
        _ => Err(anyhow!("a flag is 0 or 1")),
    }
}

// The number of an entry that has one.
fn one<T: TryFrom<u64, Error = TryFromIntError> + Drop>(numbers: &[u64]) -> anyhow::Result<T>
    ensures { IfOk result (λ x. Gives T.try_from_gives numbers.now x) }
{
    let [number] = numbers else {
        return unknown();
    };
    Ok(T::try_from(*number)?)
}

// An entry that is the number of one place.
fn set<T: TryFrom<u64, Error = TryFromIntError> + Drop>(
    place: &mut T,
    numbers: &[u64],
) -> anyhow::Result<()>
    ensures { OnOk result (Gives T.try_from_gives numbers.now place.new) }
{
    *place = one(numbers)?;
    Ok(())
}

fn set_volatility(state: &mut MarketState, numbers: &[u64]) -> anyhow::Result<()>
    ensures { OnOk result (SetsVolatility numbers.now state.old state.new) }
{
    let [overnight, forward] = numbers else {
        return unknown();
    };
    state.overnight.volatility = u32::try_from(*overnight)?;
    state.forward.volatility = u32::try_from(*forward)?;
    Ok(())
}

fn set_averages(state: &mut MarketState, numbers: &[u64]) -> anyhow::Result<()>
    ensures { OnOk result (SetsAverages numbers.now state.old state.new) }
{
    let [family, initial, gross] = numbers else {
        return unknown();
    };
    let averages = Some(Averages {
        initial: *initial,
        gross: *gross,
    });
    match *family {
        0 => state.overnight.averages = averages,
        1 => state.forward.averages = averages,
        _ => return unknown(),
    }
    Ok(())
}

fn security_of(price: u64, haircut: u64, listed: u64) -> anyhow::Result<SecurityRow>
    ensures { IfOk result (λ s. price ∷ haircut ∷ listed ∷ [] ≡ s.price ∷ s.haircut ∷ from_bool s.listed ∷ []) }
{
    Ok(SecurityRow {
        price: u32::try_from(price)?,
        haircut: u32::try_from(haircut)?,
        listed: flag(listed)?,
    })
}

fn set_security(state: &mut MarketState, numbers: &[u64]) -> anyhow::Result<()>
    ensures { OnOk result (SetsSecurity numbers.now state.old state.new) }
{
    let [number, price, haircut, listed] = numbers else {
        return unknown();
    };
    if *number >= 32 {
        return unknown();
    }
    state.securities[*number as usize] = security_of(*price, *haircut, *listed)?;
    Ok(())
}

fn set_lots(row: &mut AccountRow, numbers: &[u64]) -> anyhow::Result<()>
    ensures { OnOk result (SetsLots numbers.now row.old row.new) }
{
    let [number, lots] = numbers else {
        return unknown();
    };
    if *number >= 32 {
        return unknown();
    }
    row.lots[*number as usize] = u32::try_from(*lots)?;
    Ok(())
}

fn levels_of(initial: u64, gross: u64) -> anyhow::Result<Levels>
    ensures { IfOk result (λ l. initial ∷ gross ∷ [] ≡ l.initial ∷ l.gross ∷ []) }
{
    Ok(Levels {
        initial: u8::try_from(initial)?,
        gross: u8::try_from(gross)?,
    })
}

fn set_levels(row: &mut AccountRow, numbers: &[u64]) -> anyhow::Result<()>
    ensures { OnOk result (SetsLevels numbers.now row.old row.new) }
{
    let [family, initial, gross] = numbers else {
        return unknown();
    };
    let levels = levels_of(*initial, *gross)?;
    match *family {
        0 => row.overnight = levels,
        1 => row.forward = levels,
        _ => return unknown(),
    }
    Ok(())
}

fn set_flags(row: &mut AccountRow, numbers: &[u64]) -> anyhow::Result<()>
    ensures { OnOk result (SetsFlags numbers.now row.old row.new) }
{
    let [own, second] = numbers else {
        return unknown();
    };
    row.own = flag(*own)?;
    row.second = flag(*second)?;
    Ok(())
}

fn trade_of(numbers: &[u64]) -> anyhow::Result<TradeRow>
    ensures { IfOk result (λ t. TradeEntry numbers.now t) }
{
    let [number, benchmark, side, maturity, notional, rate] = numbers else {
        return unknown();
    };
    Ok(TradeRow {
        number: u32::try_from(*number)?,
        benchmark: u8::try_from(*benchmark)?,
        side: u8::try_from(*side)?,
        maturity: u16::try_from(*maturity)?,
        notional: u32::try_from(*notional)?,
        rate: u32::try_from(*rate)?,
    })
}

// An entry of the market.
fn set_market(state: &mut MarketState, word: &str, numbers: &[u64]) -> anyhow::Result<()>
    ensures { OnOk result (MarketEntry word.now numbers.now state.old state.new) }
{
    match word {
        "month" => set(&mut state.day.month, numbers),
        "set" => set(&mut state.day.set, numbers),
        "step-up" => set(&mut state.percent, numbers),
        "volatility" => set_volatility(state, numbers),
        "averages" => set_averages(state, numbers),
        "security" => set_security(state, numbers),
        _ => unknown(),
    }
}

// An entry of the account, or of the market.
fn set_account(input: &mut Input, word: &str, numbers: &[u64]) -> anyhow::Result<()>
    ensures { OnOk result (AccountEntry word.now numbers.now input.old input.new) }
{
    match word {
        "cash" => set(&mut input.row.cash, numbers),
        "lots" => set_lots(&mut input.row, numbers),
        "levels" => set_levels(&mut input.row, numbers),
        "flags" => set_flags(&mut input.row, numbers),
        _ => set_market(&mut input.state, word, numbers),
    }
}

fn add_trade(input: &mut Input, numbers: &[u64]) -> anyhow::Result<()>
    ensures { OnOk result (AddsTrade numbers.now input.old input.new) }
{
    input.trades.push(trade_of(numbers)?)?;
    Ok(())
}

fn set_restricted(input: &mut Input, numbers: &[u64]) -> anyhow::Result<()>
    ensures { OnOk result (SetsRestricted numbers.now input.old input.new) }
{
    input.restricted = flag(one(numbers)?)?;
    Ok(())
}

fn set_entry(input: &mut Input, word: &str, numbers: &[u64]) -> anyhow::Result<()>
    ensures { OnOk result (Entry word.now numbers.now input.old input.new) }
{
    match word {
        "trade" => add_trade(input, numbers),
        "house-restricted" => set_restricted(input, numbers),
        _ => set_account(input, word, numbers),
    }
}

fn read_entry(heap: Global, input: &mut Input, line: &str) -> anyhow::Result<()> {
    let mut words = line.split_whitespace();
    let Some(word) = words.next() else {
        return Ok(());
    };
    if word.starts_with('#') {
        return Ok(());
    }
    let mut numbers: Vec<u64> = Vec::new(heap);
    for text in words.take_while(|text| !text.starts_with('#')) {
        numbers.push(text.parse::<u64>()?)?;
    }
    set_entry(input, word, numbers.as_slice())
}

pub fn read_account(heap: Global, text: &str) -> anyhow::Result<Input> {
    let mut input = Input::empty(heap);
    for line in text.lines() {
        read_entry(heap, &mut input, line)?;
    }
    Ok(input)
}
