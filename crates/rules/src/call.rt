// The calls on a house, and what they answer.
ghost use Rattle.std.specs.Prelude.{◌≡◌, Some};
ghost use Rattle.rules.specs.Outcomes.{blank_answer};
ghost use Rattle.rules.specs.MarketCalls.{blank_market};

use market::call::MarketCall;
use std::fmt;
use tables::row::TradeRow;

// Trade: a new trade. End: the first trade of a number goes. Lodge and draw: collateral comes in or goes out, an amount, or a security
// and its lots, in two numbers as callers pass them.
// Show: nothing but the settlement that every accepted call makes.
#[derive(Clone, Copy)]
pub enum AccountCall {
    Trade(TradeRow),
    End(u32),
    LodgeCash(u64),
    DrawCash(u64),
    LodgeSecurity(u32, u32),
    DrawSecurity(u32, u32),
    Show,
}

// The number of the first question that failed, or 0; the figures that the record holds after the call;
// and the restriction: 0 none, 1 own flag, 2 second flag, 3 both. They are plain numbers since it is part of the C interface.
#[repr(C)]
#[derive(Clone, Copy, Debug, Default, PartialEq, Eq)]
pub struct Answer {
    pub number: u8,
    pub restriction: u8,
    pub obligation: u64,
    pub available: u64,
    pub shortfall: u64,
}

// A call with the account that it names.
#[derive(Clone, Copy)]
pub struct NamedCall {
    pub account: u32,
    pub call: AccountCall,
}

// What a market call answers: the number of the first question that failed, or 0; set and month; and the volatility per cents
// of both families in tenths, as they stand after the call. They are plain numbers since it is part of the C interface.
#[repr(C)]
#[derive(Clone, Copy, Debug, Default, PartialEq, Eq)]
pub struct MarketAnswer {
    pub number: u8,
    pub month: u16,
    pub set: u32,
    pub overnight: u32,
    pub forward: u32,
}

// Any call: on one account, or of the market.
#[derive(Clone, Copy)]
pub enum Call {
    Account(NamedCall),
    Market(MarketCall),
}

// What any call answers.
#[derive(Clone, Copy, Debug, PartialEq, Eq)]
pub enum Reply {
    Account(Answer),
    Market(MarketAnswer),
}

// A call in a list of calls: it brings the tables as the list so far left them, or others that fail question 1. Two kinds and no flag
// beside the call, since the laws of lists tell the two apart by cases.
#[derive(Clone, Copy)]
pub enum Event {
    RightTables(Call),
    WrongTables(Call),
}

impl Answer {
    // An answer without figures.
    pub fn blank(number: u8) -> Answer
        ensures { result ≡ blank_answer number }
    {
        Answer {
            number,
            ..Answer::default()
        }
    }
}

impl MarketAnswer {
    // An answer without figures: that of a call for which there is no market.
    pub fn blank(number: u8) -> MarketAnswer
        ensures { result ≡ blank_market number }
    {
        MarketAnswer {
            number,
            ..MarketAnswer::default()
        }
    }
}

impl fmt::Display for Answer {
    ghost use Rattle.rules.specs.Printing.{answer_text};

    ghost output = { λ a. Some (answer_text a) };

    fn fmt<W: fmt::Write>(&self, f: &mut fmt::Formatter<W>) -> fmt::Result {
        write!(
            f,
            "{} {} {} {} {}",
            self.number, self.obligation, self.available, self.shortfall, self.restriction
        )
    }
}

impl fmt::Display for MarketAnswer {
    ghost use Rattle.rules.specs.Printing.{market_text};

    ghost output = { λ a. Some (market_text a) };

    fn fmt<W: fmt::Write>(&self, f: &mut fmt::Formatter<W>) -> fmt::Result {
        write!(
            f,
            "{} {} {} {} {}",
            self.number, self.set, self.month, self.overnight, self.forward
        )
    }
}

impl fmt::Display for Reply {
    ghost use Rattle.rules.specs.Printing.{reply_text};

    ghost output = { λ r. Some (reply_text r) };

    fn fmt<W: fmt::Write>(&self, f: &mut fmt::Formatter<W>) -> fmt::Result {
        match self {
            Reply::Account(answer) => answer.fmt(f),
            Reply::Market(answer) => answer.fmt(f),
        }
    }
}
