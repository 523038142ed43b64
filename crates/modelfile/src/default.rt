// The model in use before any is read.
ghost use Rattle.std.specs.Prelude.{◌≡◌, IfOk};
ghost use Rattle.owned.specs.Any.{any_of};
ghost use Rattle.modelfile.specs.Default.{zero_table};

use models::laid::LaidOut;
use models::sound::SoundNumbers;
use owned::any::{AnyModel, SingleModel};
use owned::owned_model::OwnedNumbers;
use std::alloc::{AllocError, Global};
use std::marker::PhantomData;

// The table model of 1 set and 20 scenarios in which every number is 0. It shares no making with the model of the worked figures of
// the program `statement`, which has other constants: the contract here is a definition.
pub fn default_model(heap: Global) -> Result<AnyModel, AllocError>
    ensures { IfOk result (λ m. any_of m ≡ zero_table) }
{
    let numbers = OwnedNumbers {
        sets: 1,
        scenarios: 20,
        rates: vec![in heap; 0u32; 484]?,
        ticks: vec![in heap; 0u32; 484]?,
        changes: vec![in heap; 0i32; 9_680]?,
    };
    let sound = SoundNumbers {
        numbers,
        layout: PhantomData,
    };
    Ok(AnyModel::One(SingleModel::Table(LaidOut::new(sound))))
}
