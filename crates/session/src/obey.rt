// A line of a script, played on a session.
ghost use Rattle.std.specs.Prelude.{◌≡◌, ◌⊎◌, IfErr};
ghost use Rattle.script.specs.declared.reason.Reason.TheVariants.{NoFile, NoMemory};
ghost use Rattle.session.specs.Held.{held};
ghost use Rattle.session.specs.Lines.{Takes, Does, Plays};

use super::said::Said;
use super::session::Session;
use modelfile::refusal::LoadRefusal;
use script::command::Command;
use script::parse::{file_name, parse};
use script::reason::Reason;
use std::alloc::Global;
use std::io::ErrorKind;
use std::str::from_utf8;
use std::{fs, io};

// Why a file was not read.
fn unread(error: io::Error) -> Reason
    ensures { (result ≡ NoFile) ⊎ (result ≡ NoMemory) }
{
    match error.kind() {
        ErrorKind::OutOfMemory => Reason::NoMemory,
        _ => Reason::NoFile,
    }
}

// The bytes of the file of this name.
fn read_file(rt: &HostRuntime, name: &[u8]) -> Result<Vec<u8>, Reason>
    ensures { IfErr result (λ e. (e ≡ NoFile) ⊎ (e ≡ NoMemory)) }
{
    let path = from_utf8(name).map_err(|_| Reason::NoFile)?;
    fs::read(rt, path).map_err(unread)
}

// Takes the model of a text into use. Refused numbers are said and no error, so a `From` and `?` are no plainer than this match.
pub fn take(session: &mut Session, heap: Global, text: &[u8]) -> Result<Said, Reason>
    ensures { Takes text.now (held session.old) result (held session.new) }
{
    match session.take_model(heap, text) {
        Ok(()) => Ok(Said::Loaded),
        Err(LoadRefusal::Making(refusal)) => Ok(Said::Refused(refusal)),
        Err(LoadRefusal::Malformed) => Err(Reason::NotModel),
        Err(LoadRefusal::Memory) => Err(Reason::NoMemory),
    }
}

// Does what a command asks for; `name` is the name of the file of a model.
pub fn obey(
    session: &mut Session,
    rt: &HostRuntime,
    command: Command,
    name: &[u8],
) -> Result<Said, Reason>
    ensures { Does command (held session.old) result (held session.new) }
{
    match command {
        Command::Open(accounts, month) => {
            let number = session.open(rt.alloc(), accounts, month)?;
            Ok(Said::Opened(number))
        }
        Command::Model => {
            let text = read_file(rt, name)?;
            take(session, rt.alloc(), text.as_slice())
        }
        Command::Call(call) => Ok(Said::Replied(call, session.call(call))),
        Command::Report => Ok(Said::Report),
    }
}

// Plays a line. One with an error changes nothing.
pub fn play(session: &mut Session, rt: &HostRuntime, line: &[u8]) -> Result<Said, Reason>
    ensures { Plays line.now (held session.old) result (held session.new) }
{
    match parse(line)? {
        Some(command) => obey(session, rt, command, file_name(line)),
        None => Ok(Said::Nothing),
    }
}
