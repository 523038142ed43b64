// The numbers of a model, of which nothing is known.
ghost use Rattle.std.specs.Prelude.{◌≡◌};
ghost use Rattle.models.specs.Tables.{Tables};

// Numbers that are lent. Rates and tick values stand by set, benchmark and residual (or knot); changes
// (or shocks) stand so too, and then by scenario.
#[derive(Clone, Copy)]
pub struct Numbers<'a> {
    pub sets: u32,
    pub scenarios: u32,
    pub rates: &'a [u32],
    pub ticks: &'a [u32],
    pub changes: &'a [i32],
}

// What holds the numbers of a model.
pub trait Lend {
    ghost use Rattle.models.specs.Lent.{lent};

    // The numbers that it holds.
    ghost tables: { Self → Tables };

    // The numbers, to be read in place.
    fn lend(&self) -> Numbers<'_>
        ensures { lent result ≡ tables self.now };
}

impl<'a> Lend for Numbers<'a> {
    ghost use Rattle.models.specs.Lent.{lent};

    ghost tables = { lent };

    fn lend(&self) -> Numbers<'_> {
        *self
    }
}
