// The words that a line may begin with.
ghost use Rattle.std.specs.Prelude.{◌≡◌, Some};
ghost use Rattle.std.specs.Result.{result_ok};
ghost use Rattle.script.specs.Words.{word_text, word_named, call_word};

use market::call::MarketCall;
use rules::call::{AccountCall, Call};
use std::fmt;

#[derive(Clone, Copy, Debug, PartialEq, Eq)]
pub enum Word {
    Open,
    Model,
    Trade,
    End,
    LodgeCash,
    DrawCash,
    LodgeSecurity,
    DrawSecurity,
    Show,
    Set,
    Price,
    StepUp,
    Averages,
    Thresholds,
    Check,
    Close,
    Month,
    Report,
}

const WORDS: [Word; 18] = [
    Word::Trade,
    Word::End,
    Word::Show,
    Word::LodgeCash,
    Word::DrawCash,
    Word::LodgeSecurity,
    Word::DrawSecurity,
    Word::Set,
    Word::Price,
    Word::StepUp,
    Word::Averages,
    Word::Thresholds,
    Word::Check,
    Word::Close,
    Word::Month,
    Word::Open,
    Word::Model,
    Word::Report,
];

impl Word {
    // How it is written.
    pub fn text(self) -> &'static str
        ensures { result.now ≡ word_text self }
    {
        match self {
            Word::Open => "open",
            Word::Model => "model",
            Word::Trade => "trade",
            Word::End => "end",
            Word::LodgeCash => "lodge-cash",
            Word::DrawCash => "draw-cash",
            Word::LodgeSecurity => "lodge-security",
            Word::DrawSecurity => "draw-security",
            Word::Show => "show",
            Word::Set => "set",
            Word::Price => "price",
            Word::StepUp => "step-up",
            Word::Averages => "averages",
            Word::Thresholds => "thresholds",
            Word::Check => "check",
            Word::Close => "close",
            Word::Month => "month",
            Word::Report => "report",
        }
    }
}

impl fmt::Display for Word {
    ghost output = { λ word. Some (word_text word) };

    fn fmt<W: fmt::Write>(&self, f: &mut fmt::Formatter<W>) -> fmt::Result {
        f.write_str(self.text())
    }
}

impl From<Call> for Word {
    ghost from_gives = { λ call word. word ≡ call_word call };

    // The word of the line that asks for a call.
    fn from(call: Call) -> Word {
        match call {
            Call::Account(named) => match named.call {
                AccountCall::Trade(_) => Word::Trade,
                AccountCall::End(_) => Word::End,
                AccountCall::LodgeCash(_) => Word::LodgeCash,
                AccountCall::DrawCash(_) => Word::DrawCash,
                AccountCall::LodgeSecurity(_, _) => Word::LodgeSecurity,
                AccountCall::DrawSecurity(_, _) => Word::DrawSecurity,
                AccountCall::Show => Word::Show,
            },
            Call::Market(change) => match change {
                MarketCall::Set(_) => Word::Set,
                MarketCall::Price(_) => Word::Price,
                MarketCall::StepUp(_) => Word::StepUp,
                MarketCall::Averages(_, _) => Word::Averages,
                MarketCall::Thresholds(_, _) => Word::Thresholds,
                MarketCall::Volatility(_) => Word::Check,
                MarketCall::Close => Word::Close,
                MarketCall::Month(_) => Word::Month,
            },
        }
    }
}

// A text that is no word.
#[derive(Clone, Copy, Debug, PartialEq, Eq)]
pub struct UnknownWord;

impl TryFrom<&[u8]> for Word {
    type Error = UnknownWord;

    ghost try_from_gives = { λ text r. result_ok r ≡ word_named text.now };

    fn try_from(text: &[u8]) -> Result<Word, UnknownWord> {
        WORDS
            .iter()
            .find(|word| text == word.text().as_bytes())
            .copied()
            .ok_or(UnknownWord)
    }
}
