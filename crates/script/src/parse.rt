// A line read.
ghost use Rattle.std.specs.Prelude.{◌≡◌, Ok, Err, MatchResult};
ghost use Rattle.scan.specs.Words.{word_of, rest_of};
ghost use Rattle.script.specs.Commands.{on_account, of_market, command_in, whole_of, command_of};
ghost use Rattle.script.specs.Lines.{uncommented};

use super::command::Command;
use super::fields::{FromFields, Name};
use super::lines::without_comment;
use super::reason::Reason;
use super::word::Word;
use market::call::MarketCall;
use rules::call::{AccountCall, Call, NamedCall};
use scan::scan::Scan;

fn on_account(account: u32, call: AccountCall) -> Command
    ensures { result ≡ on_account account call }
{
    Command::Call(Call::Account(NamedCall { account, call }))
}

fn of_market(call: MarketCall) -> Command
    ensures { result ≡ of_market call }
{
    Command::Call(Call::Market(call))
}

// The fields that follow a word, and what the line asks for.
fn read_command(word: Word, scan: &mut Scan) -> Result<Command, Reason>
    ensures { MatchResult result (λ c. command_in word scan.old.rest.now ≡ Ok (c, scan.new.rest.now)) (λ e. command_in word scan.old.rest.now ≡ Err e) }
{
    match word {
        Word::Open => {
            let (accounts, month) = FromFields::read(scan)?;
            Ok(Command::Open(accounts, month))
        }
        Word::Model => {
            let Name = FromFields::read(scan)?;
            Ok(Command::Model)
        }
        Word::Trade => {
            let (account, trade) = FromFields::read(scan)?;
            Ok(on_account(account, AccountCall::Trade(trade)))
        }
        Word::End => {
            let (account, number) = FromFields::read(scan)?;
            Ok(on_account(account, AccountCall::End(number)))
        }
        Word::LodgeCash => {
            let (account, amount) = FromFields::read(scan)?;
            Ok(on_account(account, AccountCall::LodgeCash(amount)))
        }
        Word::DrawCash => {
            let (account, amount) = FromFields::read(scan)?;
            Ok(on_account(account, AccountCall::DrawCash(amount)))
        }
        Word::LodgeSecurity => {
            let (account, security, lots) = FromFields::read(scan)?;
            Ok(on_account(account, AccountCall::LodgeSecurity(security, lots)))
        }
        Word::DrawSecurity => {
            let (account, security, lots) = FromFields::read(scan)?;
            Ok(on_account(account, AccountCall::DrawSecurity(security, lots)))
        }
        Word::Show => {
            let account = FromFields::read(scan)?;
            Ok(on_account(account, AccountCall::Show))
        }
        Word::Set => {
            let set = FromFields::read(scan)?;
            Ok(of_market(MarketCall::Set(set)))
        }
        Word::Price => {
            let quote = FromFields::read(scan)?;
            Ok(of_market(MarketCall::Price(quote)))
        }
        Word::StepUp => {
            let percent = FromFields::read(scan)?;
            Ok(of_market(MarketCall::StepUp(percent)))
        }
        Word::Averages => {
            let (family, averages) = FromFields::read(scan)?;
            Ok(of_market(MarketCall::Averages(family, averages)))
        }
        Word::Thresholds => {
            let (family, thresholds) = FromFields::read(scan)?;
            Ok(of_market(MarketCall::Thresholds(family, thresholds)))
        }
        Word::Check => {
            let check = FromFields::read(scan)?;
            Ok(of_market(MarketCall::Volatility(check)))
        }
        Word::Close => Ok(of_market(MarketCall::Close)),
        Word::Month => {
            let month = FromFields::read(scan)?;
            Ok(of_market(MarketCall::Month(month)))
        }
        Word::Report => Ok(Command::Report),
    }
}

// A command after which no word may follow.
#[tactic(auto, unfolding(crate::specs::Commands::whole_of))]
fn read_all(text: &[u8]) -> Result<Command, Reason>
    ensures { result ≡ whole_of text.now }
{
    let mut scan = Scan::new(text);
    let word = Word::try_from(scan.word())?;
    let found = read_command(word, &mut scan)?;
    if scan.word().is_empty() {
        Ok(found)
    } else {
        Err(Reason::TooManyWords)
    }
}

// What a line asks for: nothing where it has no word.
pub fn parse(line: &[u8]) -> Result<Option<Command>, Reason>
    ensures { result ≡ command_of line.now }
{
    let text = without_comment(line);
    if Scan::new(text).word().is_empty() {
        return Ok(None);
    }
    read_all(text).map(Some)
}

// The second word of a line, which is the name of the file where the line asks for a model. It is read again here, and not lent by
// the command: that is no plainer, since every command would then have the lifetime of its line.
pub fn file_name(line: &[u8]) -> &[u8]
    ensures { result.now ≡ word_of (rest_of (uncommented line.now)) }
{
    let mut scan = Scan::new(without_comment(line));
    let _ = scan.word();
    scan.word()
}
