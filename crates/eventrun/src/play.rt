// An event file played: the opening, and then the account calls.
ghost use Rattle.std.specs.Prelude.{◌≡◌, ◌≢◌, min, ◌∷◌, map, length, take, drop, IfOk};
ghost use Rattle.events.specs.declared.event.Event.TheVariants.{Open};
ghost use Rattle.events.specs.Files.{events_of, fault_of};
ghost use Rattle.refusals.specs.Refusals.{first_no, decided, result_number};
ghost use Rattle.rules.specs.Opening.{opening_questions, opened_market, opened_rows, opened_trades};
ghost use Rattle.rules.specs.Runs.{answers_run};
ghost use Rattle.eventrun.specs.Endings.{fault_in};
ghost use Rattle.eventrun.specs.Files.{answer_in, tables_after, Plays, IsFileRun};

use super::calls::{calls_in, events_in};
use engine::play::play as play_day;
use events::event::Event;
use events::fault::Fault;
use events::reading::{Ending, MOST_EVENTS, read_all};
use house::listing::answer_all;
use models::model::MarginModel;
use opening::opening::{empty_row, open, unopened};
use rules::call::{Answer, NamedCall, Reply};
use rules::house::House;
use std::alloc::{AllocError, Global};
use tables::row::{AccountRow, NO_TRADE, TradeRow};

// The records of a file up to its first fault, and that fault.
#[derive(Drop)]
pub struct Found {
    pub events: Vec<Event>,
    pub fault: Option<Fault>,
}

// How the opening ended, if there is one, and the answers to the records after an accepted one.
#[derive(Drop)]
pub struct Played {
    // 0 or the refusal's number, which the line prints and which is said of a file's run; a `Result` would be turned into it
    // where it is printed.
    pub number: Option<u8>,
    pub answers: Vec<Answer>,
}

// A file that was read and played.
#[derive(Drop)]
pub struct FileRun {
    pub found: Found,
    pub played: Played,
}

// Opens the house, and answers the calls on it in turn. Gives the number of the opening, plain as `open` answers it; after a
// refused one no call is answered, and everything is as it was. It is to `answer_all` what `engine::play` is to `replay`.
pub fn open_and_answer<M: MarginModel>(
    model: &M,
    house: &mut House,
    accounts: u32,
    month: u16,
    records: &mut [AccountRow],
    trades: &mut [TradeRow],
    calls: &[NamedCall],
    answers: &mut [Answer],
) -> u8
    ensures number { result ≡ result_number (first_no (opening_questions accounts month records.old trades.old)) }
    ensures accounts { house.new.accounts ≡ decided (first_no (opening_questions accounts month records.old trades.old)) accounts (λ e. house.old.accounts) }
    ensures market { house.new.market.state ≡ decided (first_no (opening_questions accounts month records.old trades.old)) (opened_market month) (λ e. house.old.market.state) }
    ensures rows { records.new ≡ decided (first_no (opening_questions accounts month records.old trades.old)) (tables_after (M.meaning model.now) accounts month (take (min (length calls.now) (length answers.old)) calls.now)).0 (λ e. records.old) }
    ensures trades { trades.new ≡ decided (first_no (opening_questions accounts month records.old trades.old)) (tables_after (M.meaning model.now) accounts month (take (min (length calls.now) (length answers.old)) calls.now)).1 (λ e. trades.old) }
    ensures answers { result ≡ 0 → take (min (length calls.now) (length answers.old)) answers.new ≡ answers_run (M.meaning model.now) (opened_market month) accounts (opened_rows accounts, opened_trades accounts) (take (min (length calls.now) (length answers.old)) calls.now) }
    ensures rest { result ≡ 0 → drop (min (length calls.now) (length answers.old)) answers.new ≡ drop (min (length calls.now) (length answers.old)) answers.old }
    ensures refused { result ≢ 0 → answers.new ≡ answers.old }
{
    let number = open(house, accounts, month, records, trades);
    if number == 0 {
        let _ = answer_all(house, model, records, trades, calls, answers);
    }
    number
}

// The answer in a reply; a market's reply has none, and an `Option` would be no plainer: a list of account calls gets no such reply.
fn answer_in(reply: Reply) -> Answer
    ensures { result ≡ answer_in reply }
{
    match reply {
        Reply::Account(answer) => answer,
        Reply::Market(_) => Answer::blank(0),
    }
}

// The answers in the replies, in their order.
fn answers_of(heap: Global, replies: &[Reply]) -> Result<Vec<Answer>, AllocError>
    ensures { IfOk result (λ v. v.items ≡ map answer_in replies.now) }
{
    replies.iter().map(|reply| answer_in(*reply)).collect(heap)
}

// The fault that a reading ended at, if it did.
fn fault_in(ending: Ending) -> Option<Fault>
    ensures { result ≡ fault_in ending }
{
    match ending {
        Ending::Fault(fault) => Some(fault),
        Ending::End | Ending::NoRoom => None,
    }
}

// Reads an event file, by the reader of whole files: no file has more events than the room.
pub fn read_file(heap: Global, bytes: &[u8]) -> Result<Found, AllocError>
    ensures { IfOk result (λ f. (f.events.items ≡ events_of bytes.now) × (f.fault ≡ fault_of bytes.now)) }
{
    let blank = Event::Open {
        accounts: 0,
        month: 0,
    };
    let mut events = vec![in heap; blank; MOST_EVENTS]?;
    let reading = read_all(bytes, &mut events);
    events.truncate(reading.count);
    Ok(Found {
        events,
        fault: fault_in(reading.ending),
    })
}

// An opening on new tables, and the calls of the records after it.
fn play_opened<M: MarginModel>(
    heap: Global,
    model: &M,
    accounts: u8,
    month: u16,
    later: &[Event],
) -> Result<Played, AllocError>
    ensures { IfOk result (λ p. Plays (M.meaning model.now) (Open accounts month ∷ later.now) p) }
{
    let calls = calls_in(heap, later)?;
    let events = events_in(heap, calls.as_slice())?;
    let mut replies = vec![in heap; Reply::Account(Answer::blank(0)); events.len()]?;
    let mut rows = vec![in heap; empty_row(); accounts as usize]?;
    let mut places = vec![in heap; NO_TRADE; 64 * accounts as usize]?;
    let mut house = unopened();
    let day = play_day(
        &mut house,
        model,
        accounts as u32,
        month,
        &mut rows,
        &mut places,
        events.as_slice(),
        &mut replies,
    );
    match day {
        Ok(_) => Ok(Played {
            number: Some(0),
            answers: answers_of(heap, replies.as_slice())?,
        }),
        Err(refusal) => Ok(Played {
            number: Some(refusal.number()),
            answers: Vec::new(heap),
        }),
    }
}

// Plays the records of a file on a house of its own, if the first is an opening.
pub fn play<M: MarginModel>(heap: Global, model: &M, events: &[Event]) -> Result<Played, AllocError>
    ensures { IfOk result (λ p. Plays (M.meaning model.now) events.now p) }
{
    match events {
        [Event::Open { accounts, month }, later @ ..] => {
            play_opened(heap, model, *accounts, *month, later)
        }
        _ => Ok(Played {
            number: None,
            answers: Vec::new(heap),
        }),
    }
}

// Reads an event file and plays it: from the bytes to the answers.
pub fn run_file<M: MarginModel>(
    heap: Global,
    model: &M,
    bytes: &[u8],
) -> Result<FileRun, AllocError>
    ensures { IfOk result (λ f. IsFileRun (M.meaning model.now) bytes.now f) }
{
    let found = read_file(heap, bytes)?;
    let played = play(heap, model, found.events.as_slice())?;
    Ok(FileRun { found, played })
}
