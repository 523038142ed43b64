// Making a security from a row, and what lots of it count for.
ghost use Rattle.std.specs.Prelude.{◌≡◌, ◌*◌, ◌≤◌, true, false, MatchOption};
ghost use Rattle.tables.specs.Limits.{security_keeps};
ghost use Rattle.tables.specs.Collateral.{lots_value};

use super::super::limits::security_keeps;
use super::super::row::SecurityRow;
use super::Security;

impl Security {
    // None where price or haircut is out of range.
    pub fn from_row(row: SecurityRow) -> Option<Security>
        ensures { MatchOption result (security_keeps row ≡ false) (λ s. s.row ≡ row) }
    {
        // `then` would need a closure with a clause on the row, and so is no plainer.
        if security_keeps(&row) {
            Some(Security { row })
        } else {
            None
        }
    }

    pub fn row(self) -> SecurityRow
        ensures { result ≡ self.row }
    {
        self.row
    }

    // What lots of it count for as collateral, in paise.
    pub fn lots_value(self, lots: u32) -> u64
        ensures value { result ≡ lots_value lots self.row }
        ensures bound { result ≤ 3000000 * lots }
    {
        if self.row.listed {
            lots as u64 * self.row.price as u64 * (100 - self.row.haircut) as u64
        } else {
            0
        }
    }
}
