// Five returns, as they are passed: no array crosses to C by itself.
ghost use Rattle.std.specs.Prelude.{◌≡◌};

use market::call::Check;

#[repr(C)]
#[derive(Clone, Copy)]
pub struct CReturns {
    pub of: [u32; 5],
}

// No `From`: it takes one value, and a tuple of these three would be no type of this crate.
pub(crate) fn check_of(family: u32, slot: u32, given: CReturns) -> Check
    ensures { result ≡ record { family = family; slot = slot; returns = given.of } }
{
    let returns = given.of;
    Check {
        family,
        slot,
        returns,
    }
}
