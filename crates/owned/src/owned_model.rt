// Models that own their tables.
ghost use Rattle.std.specs.Prelude.{◌≡◌};

use knots::model::KnotLayout;
use models::laid::LaidOut;
use models::numbers::{Lend, Numbers};
use models::table::TableLayout;

// Numbers of a model that are owned, and of which nothing is known.
#[derive(Drop)]
pub struct OwnedNumbers {
    pub sets: u32,
    pub scenarios: u32,
    pub rates: Vec<u32>,
    pub ticks: Vec<u32>,
    pub changes: Vec<i32>,
}

impl Lend for OwnedNumbers {
    ghost use Rattle.models.specs.Lent.{lent};
    ghost use Rattle.owned.specs.Owned.{owned};

    ghost tables = { owned };

    fn lend(&self) -> Numbers<'_> {
        Numbers {
            sets: self.sets,
            scenarios: self.scenarios,
            rates: self.rates.as_slice(),
            ticks: self.ticks.as_slice(),
            changes: self.changes.as_slice(),
        }
    }
}

// A table model that owns its tables.
pub type OwnedTable = LaidOut<OwnedNumbers, TableLayout>;

// A knot model that owns its tables.
pub type OwnedKnots = LaidOut<OwnedNumbers, KnotLayout>;
