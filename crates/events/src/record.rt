// The fields of a record.
ghost use Rattle.std.specs.Prelude.{◌≡◌, ◌≤◌, length};
ghost use Rattle.events.specs.Kinds.{length_of, event_kind};
ghost use Rattle.events.specs.Record.{event_at};

use super::event::{Event, Kind};
use super::numbers::bytes_at;

// The event of the record of a kind that the bytes begin with.
pub(crate) fn decode(bytes: &[u8], kind: Kind) -> Event
    requires { length_of kind ≤ length bytes.now }
    ensures value { result ≡ event_at bytes.now 0 kind }
    ensures kind { event_kind result ≡ kind }
{
    match kind {
        Kind::Open => Event::Open {
            accounts: bytes[4],
            month: u16::from_le_bytes(bytes_at(bytes, 5)),
        },
        Kind::Trade => Event::Trade {
            account: bytes[4],
            number: u32::from_le_bytes(bytes_at(bytes, 5)),
            benchmark: bytes[9],
            side: bytes[10],
            maturity: u16::from_le_bytes(bytes_at(bytes, 11)),
            notional: u32::from_le_bytes(bytes_at(bytes, 13)),
            rate: u32::from_le_bytes(bytes_at(bytes, 17)),
        },
        Kind::LodgeCash => Event::LodgeCash {
            account: bytes[4],
            amount: u64::from_le_bytes(bytes_at(bytes, 5)),
        },
        Kind::DrawCash => Event::DrawCash {
            account: bytes[4],
            amount: u64::from_le_bytes(bytes_at(bytes, 5)),
        },
    }
}
