// What is asked of a session.
ghost use Rattle.std.specs.Prelude.{◌≡◌, true, IfOk, MatchResult};
ghost use Rattle.modelfile.specs.Parts.{means};
ghost use Rattle.modelfile.specs.Texts.{Gives, UnlessMemory};
ghost use Rattle.refusals.specs.Refusals.{result_number};
ghost use Rattle.rules.specs.Opening.{opening_result};
ghost use Rattle.session.specs.Held.{held, first_held, opened, called, after_call, with_model, kept_tables};

use super::Session;
use engine::answer::answer;
use market::state::MarketState;
use modelfile::default::default_model;
use modelfile::load::load;
use modelfile::refusal::LoadRefusal;
use opening::opening::{empty_row, open, unopened};
use rules::call::{Call, Reply};
use std::alloc::{AllocError, Global};
use tables::row::{AccountRow, NO_TRADE};

impl Session {
    // As before the first opening: 1 account, month 0, and a model whose numbers are all 0.
    pub fn new(heap: Global) -> Result<Session, AllocError>
        ensures { IfOk result (λ s. held s ≡ first_held) }
    {
        let records = vec![in heap; empty_row(); 1]?;
        let trades = vec![in heap; NO_TRADE; 64]?;
        let model = default_model(heap)?;
        Ok(Session {
            house: unopened(),
            records,
            trades,
            model,
        })
    }

    // Begins anew with so many accounts in a month, and keeps the model. Gives the number of the opening; a refused one changes nothing.
    // It stays a number: a rule of the project has the opening answer one, 0 where it is accepted.
    pub fn open(&mut self, heap: Global, accounts: u32, month: u16) -> Result<u8, AllocError>
        ensures { MatchResult result (λ number. (number ≡ result_number (opening_result accounts month)) × (held self.new ≡ opened accounts month (held self.old))) (λ _. held self.new ≡ held self.old) }
    {
        let count = accounts.min(32) as usize;
        let mut records = vec![in heap; empty_row(); count]?;
        let mut trades = vec![in heap; NO_TRADE; 64 * count]?;
        let mut house = self.house;
        let number = open(&mut house, accounts, month, &mut records, &mut trades);
        if number == 0 {
            self.house = house;
            self.records = records;
            self.trades = trades;
        }
        Ok(number)
    }

    // Makes a call with the model in use.
    pub fn call(&mut self, call: Call) -> Reply
        ensures answer { result ≡ (called (held self.old) call).reply }
        ensures after { held self.new ≡ after_call (held self.old) call }
        ensures keeps { kept_tables (held self.new) ≡ kept_tables (held self.old) }
    {
        answer(
            &mut self.house,
            &self.model,
            &mut self.records,
            &mut self.trades,
            call,
        )
    }

    // Takes the model of a text into use. A text that gives none changes nothing.
    pub fn take_model(&mut self, heap: Global, text: &[u8]) -> Result<(), LoadRefusal>
        ensures answer { MatchResult result (λ _. Gives text.now (means (held self.new).model)) (λ e. UnlessMemory e (λ a. Gives text.now a)) }
        ensures after { MatchResult result (λ _. held self.new ≡ with_model (held self.old) (held self.new).model) (λ _. held self.new ≡ held self.old) }
    {
        self.model = load(heap, text)?;
        Ok(())
    }

    // The records as they stand, the house first.
    pub fn records(&self) -> &[AccountRow]
        ensures { result.now ≡ (held self.now).rows }
    {
        self.records.as_slice()
    }

    // The market as it stands.
    pub fn market(&self) -> MarketState
        ensures { result ≡ (held self.now).market }
    {
        *self.house.market.state()
    }
}
