// A security whose price and haircut keep their limits.
ghost use Rattle.std.specs.Prelude.{◌≡◌, true};
ghost use Rattle.tables.specs.Limits.{security_keeps};

use super::row::SecurityRow;

pub mod value;

#[derive(Clone, Copy)]
pub struct Security {
    row: SecurityRow,
    ghost keeps: { security_keeps row ≡ true },
}
