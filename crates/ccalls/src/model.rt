// A model: the first numbers alone, or joined with the second. That they passed their checks, a caller says by passing them. `joined`
// is a number and the second stand there in any case, as C lays them out.
ghost use Rattle.std.specs.Prelude.{◌≡◌, ◌==◌, false};
ghost use Rattle.models.specs.Lent.{lent};
ghost use Rattle.models.specs.Sound.{Sound};
ghost use Rattle.ccalls.specs.Numbers.{NumbersSound, tables_of};

use super::making::lent;
use super::numbers::CNumbers;
use models::laid::LaidOut;
use models::layout::Layout;
use models::numbers::Numbers;
use models::sound::SoundNumbers;
use std::marker::PhantomData;

#[repr(C)]
#[derive(Clone, Copy)]
pub struct CModel<'a> {
    pub joined: u32,
    pub first: CNumbers<'a>,
    pub second: CNumbers<'a>,
    ghost first_sound: { NumbersSound first },
    ghost second_sound: { (joined == 0) ≡ false → NumbersSound second },
}

// The model of numbers that passed their check, laid out so.
pub(crate) fn laid<'a, L: Layout>(numbers: CNumbers<'a>) -> LaidOut<Numbers<'a>, L>
    requires { Sound L.CELLS L.LIMIT (tables_of numbers) }
    ensures { lent result.sound.numbers ≡ tables_of numbers.entry }
{
    LaidOut::new(SoundNumbers {
        numbers: lent(numbers),
        layout: PhantomData,
    })
}
