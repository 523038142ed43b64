// Prints a statement of every margin figure of one account on a table model, a knot model and their
// join, and then the worked figures with what they should be.
// Arguments: the account's file, the table model's file, the knot model's file.
#![tactic(auto)]

ghost use Rattle.std.specs.Prelude.{◌+◌, ◌≤◌, MatchResult};
ghost use Rattle.models.specs.Refusals.{Unjoinable};

mod account_file;
mod model_file;
mod report;
mod worked;

use account_file::{Input, read_account};
use anyhow::Context;
use knots::model::KnotLayout;
use model_file::read_model;
use models::check::check_joined;
use models::joined::Joined;
use models::layout::Layout;
use models::model::MarginModel;
use models::refusal::MakingRefusal;
use models::table::TableLayout;
use owned::making::make;
use owned::owned_model::{OwnedKnots, OwnedNumbers, OwnedTable};
use report::statement_of;
use std::{env, fs, io};
use worked::worked_text;

// The text of the file that an argument names.
fn text_of(rt: &HostRuntime, path: Option<String>) -> anyhow::Result<String> {
    let path = path.context("three files are wanted: an account, a table model, a knot model")?;
    Ok(fs::read_to_string(rt, path.as_str())?)
}

// A making that was refused: its number, and the place that is out of range. An empty line follows. A script says it in other
// words, so that the refusal has no `Display`.
fn print_refusal(rt: &HostRuntime, name: &str, refusal: MakingRefusal) -> io::Result<()> {
    let number = refusal.number();
    match refusal.place() {
        Some(place) => println!(rt; "model {name} refused {number} place {place}\n"),
        None => println!(rt; "model {name} refused {number}\n"),
    }
}

fn print_statement<M: MarginModel>(
    rt: &HostRuntime,
    input: &Input,
    name: &str,
    model: &M,
) -> anyhow::Result<()> {
    print!(rt; "{}", statement_of(rt.alloc(), input, name, model)?)?;
    Ok(())
}

// Whether the two models are joined with no scenario left out.
fn may_join(table: &OwnedTable, knots: &OwnedKnots) -> Result<(), MakingRefusal>
    ensures { MatchResult result (λ _. table.now.sound.numbers.scenarios + knots.now.sound.numbers.scenarios ≤ 1000) (λ e. Unjoinable table.now.sound.numbers.scenarios knots.now.sound.numbers.scenarios e) }
{
    check_joined(table.scenarios(), knots.scenarios())
}

// The statements on both models and on their join.
fn print_joined(
    rt: &HostRuntime,
    input: &Input,
    table: &OwnedTable,
    knots: &OwnedKnots,
) -> anyhow::Result<()> {
    print_statement(rt, input, "table", table)?;
    print_statement(rt, input, "knot", knots)?;
    if let Err(refusal) = may_join(table, knots) {
        return Ok(print_refusal(rt, "joined", refusal)?);
    }
    print_statement(rt, input, "joined", &Joined::new(table, knots))
}

// Makes the two models, each after its check.
fn print_both(
    rt: &HostRuntime,
    input: &Input,
    table: OwnedNumbers,
    knots: OwnedNumbers,
) -> anyhow::Result<()> {
    let table: OwnedTable = match make(table) {
        Ok(model) => model,
        Err(refusal) => return Ok(print_refusal(rt, "table", refusal)?),
    };
    let knots: OwnedKnots = match make(knots) {
        Ok(model) => model,
        Err(refusal) => return Ok(print_refusal(rt, "knot", refusal)?),
    };
    print_joined(rt, input, &table, &knots)
}

// The account that an argument names.
fn input_of(rt: &HostRuntime, path: Option<String>) -> anyhow::Result<Input> {
    let account = text_of(rt, path)?;
    read_account(rt.alloc(), account.as_str())
}

fn run(rt: &HostRuntime) -> anyhow::Result<()> {
    let mut args = env::args(rt)?;
    let _ = args.next();
    let input = input_of(rt, args.next())?;
    let table = text_of(rt, args.next())?;
    let table = read_model(
        rt.alloc(),
        table.as_str(),
        "table",
        TableLayout::CELLS as usize,
    )?;
    let knots = text_of(rt, args.next())?;
    let knots = read_model(
        rt.alloc(),
        knots.as_str(),
        "knot",
        KnotLayout::CELLS as usize,
    )?;
    print_both(rt, &input, table, knots)?;
    print!(rt; "{}", worked_text(rt.alloc())?)?;
    Ok(())
}

fn main(rt: HostRuntime) -> anyhow::Result<()> {
    run(&rt)
}
