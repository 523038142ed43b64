// The house: how many accounts it has, and the market. Its tables are the caller's.
ghost use Rattle.std.specs.Prelude.{◌≤◌};

use market::market::Market;

#[derive(Clone, Copy)]
pub struct House {
    pub accounts: u32,
    pub market: Market,
    ghost some: { 1 ≤ accounts },
    ghost few: { accounts ≤ 32 },
}
