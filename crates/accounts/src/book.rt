// An account's record and places, within their limits. The 64 places and the count in the row are laid out as the caller's
// tables are, which the C interface passes; no heap.
ghost use Rattle.std.specs.Prelude.{◌≡◌, true};
ghost use Rattle.tables.specs.Limits.{holdings_keep, places_keep};

use tables::row::{AccountRow, TradeRow};

mod changing;
mod reading;
pub mod value;

#[derive(Clone, Copy)]
pub struct HeldBook {
    row: AccountRow,
    places: [TradeRow; 64],
    ghost holdings: { holdings_keep row ≡ true },
    ghost trades: { places_keep row.trades places ≡ true },
}
