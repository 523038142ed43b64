// The statement of one account on one model.
ghost use Rattle.std.specs.Prelude.{◌≡◌, [], ◌++◌, string_bytes, IfOk};
ghost use Rattle.scan.specs.Texts.{line, Gains};
ghost use Rattle.margins.specs.Figures.{figures_of};
ghost use Rattle.margins.specs.Flags.{own_after, second_after};
ghost use Rattle.statement.specs.Printing.{model_line, benchmark_lines, family_lines, collateral_line, owed_words, flags_line, account_line, figures_text, statement_text};

use super::account_file::Input;
use anyhow::Context;
use margins::figures::Figures;
use margins::figures::work::figures;
use margins::flags::{own_flag, second_flag};
use market::market::Market;
use models::model::MarginModel;
use std::alloc::Global;
use std::fmt::Write;
use tables::account::Account;
use tables::row::TradeRow;
use tables::standing::StandingTrades;

// The lines below have words between their numbers that no other program prints: functions, and no `Display`.
fn write_collateral(text: &mut String, cash: u64, f: &Figures) -> anyhow::Result<()>
    ensures { Gains result text.old text.new (collateral_line cash f.now) }
{
    let securities = f.securities;
    let total = f.collateral;
    writeln!(
        text,
        "collateral cash {cash} securities {securities} total {total}"
    )?;
    Ok(())
}

// The first words of the line of an account.
fn write_owed(text: &mut String, f: &Figures) -> anyhow::Result<()>
    ensures { Gains result text.old text.new (owed_words f.now) }
{
    let obligation = f.obligation;
    let available = f.available;
    let shortfall = f.shortfall;
    write!(
        text,
        "account obligation {obligation} available {available} shortfall {shortfall} "
    )?;
    Ok(())
}

// The last words of the line of an account. Its number of a restriction is that of an answer, made in `house`, on which this program does not
// stand; a script says it in a word.
fn write_flags(text: &mut String, own: bool, second: bool) -> anyhow::Result<()>
    ensures { Gains result text.old text.new (flags_line own second) }
{
    let first = u8::from(own);
    let other = u8::from(second);
    let restriction = u16::from(first) + 2 * u16::from(other);
    writeln!(
        text,
        "own-flag {first} second-flag {other} restriction {restriction}"
    )?;
    Ok(())
}

// The flags as they are after settling.
fn write_settled(text: &mut String, input: &Input, f: &Figures) -> anyhow::Result<()>
    ensures { Gains result text.old text.new (flags_line (own_after input.now.row.own f.now.obligation f.now.available) (second_after input.now.restricted input.now.row.second f.now.obligation f.now.available)) }
{
    let own = own_flag(input.row.own, f.obligation, f.available);
    let second = second_flag(
        input.restricted,
        input.row.second,
        f.obligation,
        f.available,
    );
    write_flags(text, own, second)
}

fn write_account(text: &mut String, input: &Input, f: &Figures) -> anyhow::Result<()>
    ensures { Gains result text.old text.new (account_line input.now.row input.now.restricted f.now) }
{
    write_owed(text, f)?;
    write_settled(text, input, f)
}

// The figures of an account, or what is wrong with the input.
pub fn figures_of<'a, M: MarginModel>(
    model: &M,
    input: &Input,
    trades: &'a [TradeRow],
) -> anyhow::Result<Figures>
    ensures { IfOk result (λ f. f ≡ figures_of (M.meaning model.now) input.now.state input.now.row trades.now) }
{
    let market = Market::from_state(input.state).context("a number of the market is out of range")?;
    let account = Account::from_row(input.row).context("a number of the account is out of range")?;
    let standing = StandingTrades::from_rows(trades).context(
        "a trade is out of range, or there are more than 64",
    )?;
    Ok(figures(model, &market, &account, standing))
}

fn write_benchmarks(text: &mut String, f: &Figures) -> anyhow::Result<()>
    ensures { Gains result text.old text.new (benchmark_lines f.now) }
{
    writeln!(
        text,
        "benchmark trades gross residuals half-years whole spread minimum initial mark loss credit"
    )?;
    writeln!(text, "0 {}", f.overnight.first)?;
    writeln!(text, "1 {}", f.overnight.second)?;
    writeln!(text, "2 {}", f.forward.first)?;
    writeln!(text, "3 {}", f.forward.second)?;
    Ok(())
}

fn write_families(text: &mut String, f: &Figures) -> anyhow::Result<()>
    ensures { Gains result text.old text.new (family_lines f.now) }
{
    writeln!(
        text,
        "family initial gross initial-level gross-level volatility concentration obligation credit"
    )?;
    writeln!(text, "0 {}", f.overnight)?;
    writeln!(text, "1 {}", f.forward)?;
    Ok(())
}

fn write_figures(text: &mut String, input: &Input, f: &Figures) -> anyhow::Result<()>
    ensures { Gains result text.old text.new (figures_text input.now.row input.now.restricted f.now) }
{
    write_benchmarks(text, f)?;
    write_families(text, f)?;
    write_collateral(text, input.row.cash, f)?;
    write_account(text, input, f)
}

fn write_model<M: MarginModel>(text: &mut String, name: &str, model: &M) -> anyhow::Result<()>
    ensures { Gains result text.old text.new (model_line name.now (M.meaning model.now)) }
{
    writeln!(
        text,
        "model {name} sets {} scenarios {}",
        model.sets(),
        model.scenarios()
    )?;
    Ok(())
}

// The lines of a statement, and an empty line after it.
fn write_statement<M: MarginModel>(
    text: &mut String,
    input: &Input,
    name: &str,
    model: &M,
    f: &Figures,
) -> anyhow::Result<()>
    ensures { Gains result text.old text.new (model_line name.now (M.meaning model.now) ++ figures_text input.now.row input.now.restricted f.now ++ line []) }
{
    write_model(text, name, model)?;
    write_figures(text, input, f)?;
    text.push('\n')?;
    Ok(())
}

// The text of a statement.
pub fn statement_of<M: MarginModel>(
    heap: Global,
    input: &Input,
    name: &str,
    model: &M,
) -> anyhow::Result<String>
    ensures { IfOk result (λ text. string_bytes text ≡ statement_text name.now (M.meaning model.now) input.now.state input.now.row input.now.restricted input.now.trades.items) }
{
    let f = figures_of(model, input, input.trades.as_slice())?;
    let mut text = String::new(heap);
    write_statement(&mut text, input, name, model, &f)?;
    Ok(text)
}
