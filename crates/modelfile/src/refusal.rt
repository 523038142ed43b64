// Why a text gives no model.
ghost use Rattle.std.specs.Prelude.{◌≡◌};
ghost use Rattle.modelfile.specs.declared.refusal.LoadRefusal.TheVariants.{Making, Malformed, Memory};

use super::names::UnknownName;
use models::refusal::MakingRefusal;
use std::alloc::AllocError;

#[derive(Clone, Copy, Debug, PartialEq, Eq)]
pub enum LoadRefusal {
    // Its numbers make no model.
    Making(MakingRefusal),
    // It is no model's text.
    Malformed,
    // There is not the memory for it.
    Memory,
}

impl From<MakingRefusal> for LoadRefusal {
    ghost from_gives = { λ e r. r ≡ Making e };

    fn from(refusal: MakingRefusal) -> LoadRefusal {
        LoadRefusal::Making(refusal)
    }
}

impl From<UnknownName> for LoadRefusal {
    ghost from_gives = { λ _ r. r ≡ Malformed };

    fn from(_name: UnknownName) -> LoadRefusal {
        LoadRefusal::Malformed
    }
}

impl From<AllocError> for LoadRefusal {
    ghost from_gives = { λ _ r. r ≡ Memory };

    fn from(_error: AllocError) -> LoadRefusal {
        LoadRefusal::Memory
    }
}
