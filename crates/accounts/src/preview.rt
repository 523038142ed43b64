// An account call tried on one account: what it would leave, or why it is refused.
ghost use Rattle.std.specs.Prelude.{◌≡◌};
ghost use Rattle.rules.specs.Stands.{ordered};
ghost use Rattle.accounts.specs.Changing.{book_in, Previewed};

use super::asking::{ask_after, ask_before};
use super::book::HeldBook;
use super::cover::Cover;
use market::market::Market;
use models::model::MarginModel;
use refusals::refusal::Refusal;
use rules::call::AccountCall;

// The record and places that a call would leave; a refused call leaves the caller's as they are.
// `house` tells whether the account is the house's own. It stands beside `cover`, though a constituent bears none: an
// `Option<Cover>` for both would take fewer values than callers may pass, and two cases with a cover each say no more than these.
pub fn preview<M: MarginModel>(
    model: &M,
    market: &Market,
    house: bool,
    cover: Cover,
    held: HeldBook,
    call: AccountCall,
) -> Result<HeldBook, Refusal>
    ensures { Previewed cover.paise (ordered (M.meaning model.now) market.now.state house cover.paise (book_in held) call) result }
{
    ask_before(market, &held, call)?;
    let tried = held.change(call).settled(model, market, cover);
    ask_after(house, &held.row(), &tried.row(), call)?;
    Ok(tried)
}
