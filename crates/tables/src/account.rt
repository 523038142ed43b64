// An account whose holdings keep their limits.
ghost use Rattle.std.specs.Prelude.{◌≡◌, true};
ghost use Rattle.tables.specs.Limits.{holdings_keep};

use super::row::AccountRow;

pub mod value;

#[derive(Clone, Copy)]
pub struct Account {
    row: AccountRow,
    ghost keeps: { holdings_keep row ≡ true },
}
