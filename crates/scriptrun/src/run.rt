// A script played from its first line to its last.
ghost use Rattle.std.specs.Prelude.{string_bytes, IfOk};
ghost use Rattle.scan.specs.Texts.{Gains};
ghost use Rattle.session.specs.Held.{held};
ghost use Rattle.scriptrun.specs.Lines.{said_text};
ghost use Rattle.scriptrun.specs.Runs.{IsTranscript};

use super::lines::{write_refused, write_reply, write_report};
use script::lines::Lines;
use script::reason::Reason;
use session::obey::play;
use session::said::Said;
use session::session::Session;
use std::fmt::Write;

fn write_said(
    text: &mut String,
    line: usize,
    session: &Session,
    said: Result<Said, Reason>,
) -> anyhow::Result<()>
    ensures { Gains result text.old text.new (said_text line (held session.now) said) }
{
    match said {
        Ok(Said::Nothing) => {}
        Ok(Said::Opened(number)) => writeln!(text, "{line} open {number}")?,
        Ok(Said::Loaded) => writeln!(text, "{line} model 0")?,
        Ok(Said::Refused(refusal)) => write_refused(text, line, refusal)?,
        Ok(Said::Replied(call, reply)) => write_reply(text, line, call, reply)?,
        Ok(Said::Report) => write_report(text, line, session)?,
        Err(reason) => writeln!(text, "{line} error {reason}")?,
    }
    Ok(())
}

// What a run of a script prints.
pub fn transcript(rt: &HostRuntime, bytes: &[u8]) -> anyhow::Result<String>
    ensures { IfOk result (λ text. IsTranscript bytes.now (string_bytes text)) }
{
    let heap = rt.alloc();
    let mut session = Session::new(heap)?;
    let mut text = String::new(heap);
    for (place, line) in Lines::new(bytes).enumerate() {
        let said = play(&mut session, rt, line);
        write_said(&mut text, place + 1, &session, said)?;
    }
    Ok(text)
}
