// The account calls of an event file.
ghost use Rattle.std.specs.Prelude.{◌≡◌, map, IfOk};
ghost use Rattle.eventrun.specs.Calls.{call_of, calls_in, event_of};

use events::event::Event;
use rules::call::{AccountCall, Call, Event as ListedEvent, NamedCall};
use std::alloc::{AllocError, Global};
use tables::row::TradeRow;

// The account call that a record stands for; an opening is none. It is no `TryFrom`, since both types are other crates'.
pub fn named_call(event: Event) -> Option<NamedCall>
    ensures { result ≡ call_of event }
{
    match event {
        Event::Open { .. } => None,
        Event::Trade {
            account,
            number,
            benchmark,
            side,
            maturity,
            notional,
            rate,
        } => Some(NamedCall {
            account: account as u32,
            call: AccountCall::Trade(TradeRow {
                number,
                benchmark,
                side,
                maturity,
                notional,
                rate,
            }),
        }),
        Event::LodgeCash { account, amount } => Some(NamedCall {
            account: account as u32,
            call: AccountCall::LodgeCash(amount),
        }),
        Event::DrawCash { account, amount } => Some(NamedCall {
            account: account as u32,
            call: AccountCall::DrawCash(amount),
        }),
    }
}

// The account calls of the records, in their order.
pub fn calls_in(heap: Global, records: &[Event]) -> Result<Vec<NamedCall>, AllocError>
    ensures { IfOk result (λ v. v.items ≡ calls_in records.now) }
{
    records
        .iter()
        .filter_map(|event| named_call(*event))
        .collect(heap)
}

// A call on one account, with the house's own tables. It is no `From`, which would not say that the tables are the right ones.
fn event_of(call: NamedCall) -> ListedEvent
    ensures { result ≡ event_of call }
{
    ListedEvent::RightTables(Call::Account(call))
}

// The calls as events of a list.
pub fn events_in(heap: Global, calls: &[NamedCall]) -> Result<Vec<ListedEvent>, AllocError>
    ensures { IfOk result (λ v. v.items ≡ map event_of calls.now) }
{
    calls.iter().map(|call| event_of(*call)).collect(heap)
}
