// Entries whose order compares any two. Ties are allowed: two different entries may each reach the other. It is no `Ord` of std:
// of a ratio that asks four impls with their laws, by cross multiplication, where the keeper needs one test.
ghost use Rattle.std.specs.Prelude.{◌≡◌, Bool};
ghost use Rattle.tail.specs.Tail.{Orders, reaches_loss};
ghost use Rattle.std.proofs.Common.{rules};

pub trait Ranked {
    // `reaches x y`: x is at least y.
    ghost reaches: { Self → Self → Bool };

    fn at_least(&self, other: &Self) -> bool
        ensures { result ≡ reaches self.now other.now };

    ghost orders: { Orders reaches };
}

// Losses, in paise. Two impls of a line each, here and below: one for every `Ord` would put what `Ord` says in the place of the
// definition of the order of losses, and the repository writes no impls by macro.
impl Ranked for i64 {
    ghost reaches = { reaches_loss };

    ghost orders = { Prim.search rules };

    fn at_least(&self, other: &i64) -> bool {
        *self >= *other
    }
}

// Changes, in paise.
impl Ranked for i32 {
    ghost reaches = { reaches_loss };

    ghost orders = { Prim.search rules };

    fn at_least(&self, other: &i32) -> bool {
        *self >= *other
    }
}
