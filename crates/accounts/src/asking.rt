// The questions of an account call, in order.
ghost use Rattle.std.specs.Prelude.{◌≡◌};
ghost use Rattle.refusals.specs.Refusals.{first_no};
ghost use Rattle.rules.specs.Questions.{amount_fits, lots_fit, in_term, trade_questions, end_questions, lodge_cash_questions, draw_cash_questions, lodge_security_questions, draw_security_questions, asked_before, asked_after, traded_questions, drawn_questions, restricted_by};
ghost use Rattle.tables.specs.Books.{standing_of};
ghost use Rattle.rules.specs.Changes.{holds};
ghost use Rattle.accounts.specs.Changing.{book_in};

use super::book::HeldBook;
use super::trades::holds_trade;
use market::market::Market;
use refusals::refusal::{Refusal, ask};
use rules::call::AccountCall;
use tables::row::{AccountRow, TradeRow};

const MOST_CASH: u64 = 100_000_000_000_000;

const MOST_LOTS: u32 = 1_000_000;

fn amount_fits(amount: u64) -> bool
    ensures { result ≡ amount_fits amount }
{
    (1..=MOST_CASH).contains(&amount)
}

fn lots_fit(lots: u32) -> bool
    ensures { result ≡ lots_fit lots }
{
    (1..=MOST_LOTS).contains(&lots)
}

// Whether a maturity is from the current month to 120 months later.
fn is_in_term(market: &Market, maturity: u16) -> bool
    ensures { result ≡ in_term market.now.state maturity }
{
    let month = market.state().day.month as u32;
    (month..=month + 120).contains(&(maturity as u32))
}

// Whether a standing trade of the account has this number.
fn has_number(held: &HeldBook, number: u32) -> bool
    ensures { result ≡ holds number (standing_of (book_in held.now)) }
{
    holds_trade(held.standing().rows(), number)
}

// The questions on a new trade.
fn ask_trade(market: &Market, held: &HeldBook, trade: TradeRow) -> Result<(), Refusal>
    ensures { result ≡ first_no (trade_questions market.now.state (book_in held.now) trade) }
{
    ask(trade.benchmark <= 3, Refusal::WrongBenchmark)?;
    ask(trade.side <= 1, Refusal::WrongSide)?;
    ask(
        (1..=1_000_000).contains(&trade.notional),
        Refusal::WrongNotional,
    )?;
    ask(trade.rate <= 200_000, Refusal::WrongRate)?;
    ask(is_in_term(market, trade.maturity), Refusal::WrongMaturity)?;
    ask(!has_number(held, trade.number), Refusal::NumberUsed)?;
    ask(held.trades() < 64, Refusal::TooManyTrades)
}

// The question on ending a trade.
fn ask_end(held: &HeldBook, number: u32) -> Result<(), Refusal>
    ensures { result ≡ first_no (end_questions (book_in held.now) number) }
{
    ask(has_number(held, number), Refusal::NoTrade)
}

// The questions on lodging cash.
fn ask_lodge_cash(held: &HeldBook, amount: u64) -> Result<(), Refusal>
    ensures { result ≡ first_no (lodge_cash_questions held.now.row amount) }
{
    ask(amount_fits(amount), Refusal::WrongAmount)?;
    ask(held.cash() + amount <= MOST_CASH, Refusal::OverLimit)
}

// The questions on drawing cash.
fn ask_draw_cash(held: &HeldBook, amount: u64) -> Result<(), Refusal>
    ensures { result ≡ first_no (draw_cash_questions held.now.row amount) }
{
    ask(amount_fits(amount), Refusal::WrongAmount)?;
    ask(amount <= held.cash(), Refusal::NotHeld)
}

// The questions on lodging a security.
fn ask_lodge_security(held: &HeldBook, security: u32, lots: u32) -> Result<(), Refusal>
    ensures { result ≡ first_no (lodge_security_questions held.now.row security lots) }
{
    ask(security < 32, Refusal::NoSecurity)?;
    ask(lots_fit(lots), Refusal::WrongLots)?;
    ask(held.lots(security) + lots <= MOST_LOTS, Refusal::OverLimit)
}

// The questions on drawing a security.
fn ask_draw_security(held: &HeldBook, security: u32, lots: u32) -> Result<(), Refusal>
    ensures { result ≡ first_no (draw_security_questions held.now.row security lots) }
{
    ask(security < 32, Refusal::NoSecurity)?;
    ask(lots_fit(lots), Refusal::WrongLots)?;
    ask(lots <= held.lots(security), Refusal::NotHeld)
}

// The questions of a call on its numbers and the account as it stands.
pub(crate) fn ask_before(market: &Market, held: &HeldBook, call: AccountCall) -> Result<(), Refusal>
    ensures { result ≡ first_no (asked_before market.now.state (book_in held.now) call) }
{
    match call {
        AccountCall::Trade(trade) => ask_trade(market, held, trade),
        AccountCall::End(number) => ask_end(held, number),
        AccountCall::LodgeCash(amount) => ask_lodge_cash(held, amount),
        AccountCall::DrawCash(amount) => ask_draw_cash(held, amount),
        AccountCall::LodgeSecurity(security, lots) => ask_lodge_security(held, security, lots),
        AccountCall::DrawSecurity(security, lots) => ask_draw_security(held, security, lots),
        AccountCall::Show => Ok(()),
    }
}

// Whether a record is restricted: the house by its own flag alone. Which account it is stays a `bool`, as in `preview`.
fn is_restricted(house: bool, row: &AccountRow) -> bool
    ensures { result ≡ restricted_by house row.now }
{
    if house {
        row.own
    } else {
        row.own || row.second
    }
}

// The questions on a trade's figures.
fn ask_traded(house: bool, row: &AccountRow, tried: &AccountRow) -> Result<(), Refusal>
    ensures { result ≡ first_no (traded_questions house row.now tried.now) }
{
    let restricted = is_restricted(house, row);
    ask(
        !restricted || tried.obligation < row.obligation,
        Refusal::NotLower,
    )?;
    ask(
        restricted || tried.obligation <= tried.available,
        Refusal::NotCovered,
    )
}

// The question on a draw's figures.
fn ask_drawn(tried: &AccountRow) -> Result<(), Refusal>
    ensures { result ≡ first_no (drawn_questions tried.now) }
{
    ask(tried.obligation <= tried.available, Refusal::DrawnShort)
}

// The questions of a call on the figures with its change; `tried` is the record as it would settle.
pub(crate) fn ask_after(
    house: bool,
    row: &AccountRow,
    tried: &AccountRow,
    call: AccountCall,
) -> Result<(), Refusal>
    ensures { result ≡ first_no (asked_after house row.now tried.now call) }
{
    match call {
        AccountCall::Trade(_) => ask_traded(house, row, tried),
        AccountCall::DrawCash(_) | AccountCall::DrawSecurity(_, _) => ask_drawn(tried),
        AccountCall::End(_)
        | AccountCall::LodgeCash(_)
        | AccountCall::LodgeSecurity(_, _)
        | AccountCall::Show => Ok(()),
    }
}
