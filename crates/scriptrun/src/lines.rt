// The lines that a run prints.
ghost use Rattle.std.specs.Prelude.{◌≡◌};
ghost use Rattle.scan.specs.Texts.{Gains};
ghost use Rattle.session.specs.Held.{held};
ghost use Rattle.scriptrun.specs.Lines.{reply_line, refused_line, restriction_word, record_line, record_lines, report_line, heading, report_text};

use models::refusal::MakingRefusal;
use rules::call::{Call, Reply};
use script::word::Word;
use session::session::Session;
use std::fmt::Write;
use tables::row::AccountRow;

// The line of a call that was made.
pub fn write_reply(text: &mut String, line: usize, call: Call, reply: Reply) -> anyhow::Result<()>
    ensures { Gains result text.old text.new (reply_line line call reply) }
{
    let word = Word::from(call);
    writeln!(text, "{line} {word} {reply}")?;
    Ok(())
}

// The line of a model that was refused. The statement says the same in other words, so that the refusal has no `Display`.
pub fn write_refused(text: &mut String, line: usize, refusal: MakingRefusal) -> anyhow::Result<()>
    ensures { Gains result text.old text.new (refused_line line refusal) }
{
    let number = refusal.number();
    match refusal.place() {
        Some(place) => writeln!(text, "{line} model {number} {place}")?,
        None => writeln!(text, "{line} model {number}")?,
    }
    Ok(())
}

// What an account is restricted by, in a word.
fn restriction(row: &AccountRow) -> &'static str
    ensures { result.now ≡ restriction_word row.now.own row.now.second }
{
    match (row.own, row.second) {
        (true, true) => "both",
        (true, false) => "own",
        (false, true) => "second",
        (false, false) => "none",
    }
}

// A function and no `Display`, which is no plainer: the row is another crate's, and would need a type around it with its account.
fn write_record(text: &mut String, account: usize, row: &AccountRow) -> anyhow::Result<()>
    ensures { Gains result text.old text.new (record_line account row.now) }
{
    let obligation = row.obligation;
    let available = row.available;
    let shortfall = row.shortfall;
    let held = restriction(row);
    let trades = row.trades;
    write!(text, "{account:>7} {obligation:>19} {available:>19} ")?;
    writeln!(text, "{shortfall:>19}  {held:<11} {trades:>6}")?;
    Ok(())
}

// A row for each account.
fn write_records(text: &mut String, rows: &[AccountRow]) -> anyhow::Result<()>
    ensures { Gains result text.old text.new (record_lines 0 rows.now) }
{
    for (account, row) in rows.iter().enumerate() {
        write_record(text, account, row)?;
    }
    Ok(())
}

// The first line of a report: the market.
fn write_market(text: &mut String, line: usize, session: &Session) -> anyhow::Result<()>
    ensures { Gains result text.old text.new (report_line line (held session.now)) }
{
    let state = session.market();
    let accounts = session.records().len();
    let set = state.day.set;
    let month = state.day.month;
    let overnight = state.overnight.volatility;
    let forward = state.forward.volatility;
    write!(text, "{line} report {accounts} {set} {month} ")?;
    writeln!(text, "{overnight} {forward}")?;
    Ok(())
}

// The report of a session: its market, and a row for each account.
pub fn write_report(text: &mut String, line: usize, session: &Session) -> anyhow::Result<()>
    ensures { Gains result text.old text.new (report_text line (held session.now)) }
{
    write_market(text, line, session)?;
    writeln!(
        text,
        "account          obligation           available           shortfall  restriction trades"
    )?;
    write_records(text, session.records())
}
