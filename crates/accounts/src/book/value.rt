// Making a held book, and giving its record and places back.
ghost use Rattle.std.specs.Prelude.{◌≡◌, true};
ghost use Rattle.tables.specs.Limits.{holdings_keep, places_keep};

use super::HeldBook;
use tables::row::{AccountRow, TradeRow};

impl HeldBook {
    // The making after question 1.
    pub fn new(row: AccountRow, places: [TradeRow; 64]) -> HeldBook
        requires { (holdings_keep row ≡ true) × (places_keep row.trades places ≡ true) }
        ensures row { result.row ≡ row }
        ensures places { result.places ≡ places }
    {
        HeldBook { row, places }
    }

    pub fn row(&self) -> AccountRow
        ensures value { result ≡ self.now.row }
        ensures keeps { holdings_keep result ≡ true }
    {
        self.row
    }

    pub fn places(&self) -> [TradeRow; 64]
        ensures value { result ≡ self.now.places }
        ensures keeps { places_keep self.now.row.trades result ≡ true }
    {
        self.places
    }
}
