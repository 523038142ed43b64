// The worked figures, each beside what it should be.
ghost use Rattle.std.specs.Prelude.{◌≡◌, string_bytes, IfOk, unsigned_abs};
ghost use Rattle.models.specs.Table.{table};
ghost use Rattle.owned.specs.Owned.{owned};
ghost use Rattle.scan.specs.Texts.{Gains};
ghost use Rattle.statement.specs.Worked.{worked_line, worked_tables, worked_trade, mibor_of, paid_of, pair_of, initial_lines, marked_of, mark_lines, loss_of, loss_line, tenths_of, worked_lots, charge_lines, level_line, level_lines, flag_line, flag_lines, model_lines, rule_lines, worked_text};

use super::account_file::Input;
use super::report::figures_of;
use anyhow::{Context, anyhow};
use margins::charges::next_level;
use margins::figures::BenchmarkFigures;
use margins::flags::own_flag;
use market::state::Thresholds;
use market::volatility::check_tenths;
use models::model::MarginModel;
use owned::making::make;
use owned::owned_model::{OwnedNumbers, OwnedTable};
use std::alloc::Global;
use std::fmt::Write;
use tables::row::{SecurityRow, TradeRow};
use tables::security::Security;
use tail::keeper::kth_highest;

#[tactic(auto, unfolding(crate::specs::Worked::worked_line))]
fn write_worked(text: &mut String, name: &str, value: u64, expected: u64) -> anyhow::Result<()>
    ensures { Gains result text.old text.new (worked_line name.now value expected) }
{
    writeln!(text, "worked {name} {value} expected {expected}")?;
    Ok(())
}

// A trade in MIBOR, in month 300.
fn trade(side: u8, notional: u32, months: u8, rate: u32) -> TradeRow
    ensures { result ≡ worked_trade side notional months rate }
{
    TradeRow {
        number: 1,
        benchmark: 0,
        side,
        maturity: 300 + u16::from(months),
        notional,
        rate,
    }
}

// The model of 1 set and 20 scenarios with one rate and tick value and no changes. It shares no making with the model of zeros of
// crate `modelfile`, whose counts are its definition's: these are those of the worked figures.
fn worked_model(heap: Global) -> anyhow::Result<OwnedTable>
    ensures { IfOk result (λ m. owned m.sound.numbers ≡ worked_tables) }
{
    let rates = vec![in heap; 65_500u32; 484]?;
    let ticks = vec![in heap; 10_000u32; 484]?;
    let changes = vec![in heap; 0i32; 9_680]?;
    let numbers = OwnedNumbers {
        sets: 1,
        scenarios: 20,
        rates,
        ticks,
        changes,
    };
    let Ok(model) = make(numbers) else {
        return Err(anyhow!("the model of the worked figures is refused"));
    };
    Ok(model)
}

// The figures of trades in MIBOR.
fn mibor<M: MarginModel>(
    heap: Global,
    model: &M,
    trades: &[TradeRow],
) -> anyhow::Result<BenchmarkFigures>
    ensures { IfOk result (λ f. f ≡ mibor_of (M.meaning model.now) trades.now) }
{
    let mut input = Input::empty(heap);
    input.state.day.month = 300;
    Ok(figures_of(model, &input, trades)?.overnight.first)
}

// The initial margin of one trade that pays 100 lakh.
fn paid<M: MarginModel>(heap: Global, model: &M, months: u8) -> anyhow::Result<u64>
    ensures { IfOk result (λ n. n ≡ paid_of (M.meaning model.now) months) }
{
    Ok(
        mibor(heap, model, &[trade(0, 100, months, 0)])?
            .risk
            .initial,
    )
}

// The initial margin of a trade that pays and one that receives.
fn pair<M: MarginModel>(heap: Global, model: &M) -> anyhow::Result<u64>
    ensures { IfOk result (λ n. n ≡ pair_of (M.meaning model.now)) }
{
    let trades = [trade(0, 1_000_000, 36, 0), trade(1, 200_000, 60, 0)];
    Ok(mibor(heap, model, &trades)?.risk.initial)
}

fn write_initial<M: MarginModel>(text: &mut String, heap: Global, model: &M) -> anyhow::Result<()>
    ensures { Gains result text.old text.new (initial_lines (M.meaning model.now)) }
{
    let initial = pair(heap, model)?;
    write_worked(text, "im-pay-36-receive-60", initial, 30_000_000_000)?;
    write_worked(text, "im-pay-100-at-36", paid(heap, model, 36)?, 5_000_000)?;
    write_worked(text, "im-pay-100-at-37", paid(heap, model, 37)?, 10_000_000)?;
    write_worked(text, "im-pay-100-at-60", paid(heap, model, 60)?, 10_000_000)?;
    write_worked(text, "im-pay-100-at-61", paid(heap, model, 61)?, 17_500_000)?;
    Ok(())
}

// The figures of one trade that pays 100 lakh at 6.5 per cent.
fn marked<M: MarginModel>(heap: Global, model: &M) -> anyhow::Result<BenchmarkFigures>
    ensures { IfOk result (λ f. f ≡ marked_of (M.meaning model.now)) }
{
    mibor(heap, model, &[trade(0, 100, 36, 65_000)])
}

// How far the mark lies from 0.
fn mark_size(figures: &BenchmarkFigures) -> u64
    ensures { result ≡ unsigned_abs figures.now.mark }
{
    figures.mark.unsigned_abs()
}

fn write_mark<M: MarginModel>(text: &mut String, heap: Global, model: &M) -> anyhow::Result<()>
    ensures { Gains result text.old text.new (mark_lines (M.meaning model.now)) }
{
    let figures = marked(heap, model)?;
    write_worked(text, "mark-pay-100", mark_size(&figures), 500_000)?;
    write_worked(text, "credit-pay-100", figures.credit, 475_000)?;
    Ok(())
}

// The second highest of three losses.
fn second_loss() -> anyhow::Result<u64>
    ensures { IfOk result (λ n. n ≡ loss_of) }
{
    let mut places = [0i64; 2];
    let loss = kth_highest(&[9i64, 9, 5], &mut places).context(
        "three losses have a second highest",
    )?;
    Ok(loss.unsigned_abs())
}

fn write_loss(text: &mut String) -> anyhow::Result<()>
    ensures { Gains result text.old text.new loss_line }
{
    write_worked(text, "kth-loss-9-9-5", second_loss()?, 9)
}

fn tenths() -> u32
    ensures { result ≡ tenths_of }
{
    let thresholds = Thresholds {
        triggers: [10_000; 5],
        calm: [1; 5],
    };
    check_tenths(&thresholds, [13_226, 13_226, 0, 0, 0])
}

// The value of ten lots of a security.
fn lots_value() -> anyhow::Result<u64>
    ensures { IfOk result (λ n. n ≡ worked_lots) }
{
    let row = SecurityRow {
        price: 9_850,
        haircut: 4,
        listed: true,
    };
    let security = Security::from_row(row).context(
        "the security of the worked figures is refused",
    )?;
    Ok(security.lots_value(10))
}

fn write_charges(text: &mut String) -> anyhow::Result<()>
    ensures { Gains result text.old text.new charge_lines }
{
    write_worked(text, "volatility-tenths", u64::from(tenths()), 175)?;
    write_worked(text, "collateral-10-lots", lots_value()?, 9_456_000)?;
    Ok(())
}

fn write_level(
    text: &mut String,
    name: &str,
    level: u8,
    value: u64,
    expected: u64,
) -> anyhow::Result<()>
    ensures { Gains result text.old text.new (level_line name.now level value expected) }
{
    write_worked(
        text,
        name,
        u64::from(next_level(level, value, 1000)),
        expected,
    )
}

fn write_levels(text: &mut String) -> anyhow::Result<()>
    ensures { Gains result text.old text.new level_lines }
{
    write_level(text, "level-0-at-80", 0, 80, 0)?;
    write_level(text, "level-0-at-81", 0, 81, 1)?;
    write_level(text, "level-0-at-150", 0, 150, 1)?;
    write_level(text, "level-0-at-151", 0, 151, 2)?;
    write_level(text, "level-2-at-130", 2, 130, 2)?;
    write_level(text, "level-2-at-129", 2, 129, 1)
}

#[tactic(auto, unfolding(crate::specs::Worked::flag_line))]
fn write_flag(
    text: &mut String,
    name: &str,
    was: bool,
    obligation: u64,
    expected: u64,
) -> anyhow::Result<()>
    ensures { Gains result text.old text.new (flag_line name.now was obligation expected) }
{
    write_worked(
        text,
        name,
        u64::from(own_flag(was, obligation, 100)),
        expected,
    )
}

fn write_flags(text: &mut String) -> anyhow::Result<()>
    ensures { Gains result text.old text.new flag_lines }
{
    write_flag(text, "own-flag-95-of-100", false, 95, 0)?;
    write_flag(text, "own-flag-96-of-100", false, 96, 1)?;
    write_flag(text, "own-flag-stays-at-90", true, 90, 1)?;
    write_flag(text, "own-flag-clears-at-89", true, 89, 0)?;
    Ok(())
}

// What is worked on a model, and the tail.
fn write_on_model<M: MarginModel>(text: &mut String, heap: Global, model: &M) -> anyhow::Result<()>
    ensures { Gains result text.old text.new (model_lines (M.meaning model.now)) }
{
    write_initial(text, heap, model)?;
    write_loss(text)?;
    write_mark(text, heap, model)
}

fn write_rules(text: &mut String) -> anyhow::Result<()>
    ensures { Gains result text.old text.new rule_lines }
{
    write_charges(text)?;
    write_levels(text)?;
    write_flags(text)
}

// The lines of all worked figures.
pub fn worked_text(heap: Global) -> anyhow::Result<String>
    ensures { IfOk result (λ text. string_bytes text ≡ worked_text (table worked_tables)) }
{
    let model = worked_model(heap)?;
    let mut text = String::new(heap);
    write_on_model(&mut text, heap, &model)?;
    write_rules(&mut text)?;
    Ok(text)
}
