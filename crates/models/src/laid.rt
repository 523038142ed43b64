// A model whose numbers lie in tables, read in place. Rates and tick values are two questions, each of its own table.
ghost use Rattle.std.specs.Prelude.{◌≡◌, ⊤};
ghost use Rattle.models.specs.Laid.{laid_out};
ghost use Rattle.models.specs.Lent.{lent};
ghost use Rattle.models.specs.Sound.{Sound};

use super::layout::Layout;
use super::model::{MarginModel, inside};
use super::numbers::{Lend, Numbers};
use super::sound::SoundNumbers;
use std::alloc::AllocError;
use std::marker::PhantomData;

// `Clone` and `Copy` are written by hand: no derive writes them for numbers that only some holders copy.
#[derive(Drop)]
pub struct LaidOut<N: Lend, L: Layout> {
    sound: SoundNumbers<N, L>,
}

impl<N: Lend + Copy, L: Layout> Clone for LaidOut<N, L> {
    ghost is_clone = { λ x y. y ≡ x };

    ghost is_infallible = { λ _. ⊤ };

    fn clone(&self) -> Result<LaidOut<N, L>, AllocError> {
        Ok(*self)
    }
}

impl<N: Lend + Copy, L: Layout> Copy for LaidOut<N, L> {}

impl<N: Lend, L: Layout> LaidOut<N, L> {
    // The model of numbers that passed their check. Nothing refuses it.
    pub fn new(sound: SoundNumbers<N, L>) -> LaidOut<N, L>
        ensures same { result.sound ≡ sound }
        ensures keeps { L.Keeps (N.tables sound.numbers) (laid_out L.number_at L.change_at (N.tables result.sound.numbers)) }
    {
        LaidOut { sound }
    }

    // The same model, borrowed.
    pub fn lend(&self) -> LaidOut<Numbers<'_>, L>
        ensures { lent result.sound.numbers ≡ N.tables self.now.sound.numbers }
    {
        let numbers = self.sound.numbers.lend();
        LaidOut {
            sound: SoundNumbers {
                numbers,
                layout: PhantomData,
            },
        }
    }
}

impl<N: Lend, L: Layout> MarginModel for LaidOut<N, L> {
    ghost meaning = { λ m. laid_out L.number_at L.change_at (N.tables m.sound.numbers) };

    ghost lawful = { λ m. L.Layout.lawful (N.tables m.sound.numbers) m.sound.ok };

    fn sets(&self) -> u32 {
        self.sound.numbers.lend().sets
    }

    fn scenarios(&self) -> u32 {
        self.sound.numbers.lend().scenarios
    }

    fn rate(&self, set: u32, benchmark: u32, residual: u32) -> u32 {
        let numbers = self.sound.numbers.lend();
        if inside(numbers.sets, set, benchmark, residual) {
            L::number(numbers.rates, set, benchmark, residual)
        } else {
            0
        }
    }

    fn tick(&self, set: u32, benchmark: u32, residual: u32) -> u32 {
        let numbers = self.sound.numbers.lend();
        if inside(numbers.sets, set, benchmark, residual) {
            L::number(numbers.ticks, set, benchmark, residual)
        } else {
            0
        }
    }

    fn change(&self, set: u32, benchmark: u32, residual: u32, scenario: u32) -> i32 {
        let numbers = self.sound.numbers.lend();
        if inside(numbers.sets, set, benchmark, residual) && scenario < numbers.scenarios {
            L::change(numbers, set, benchmark, residual, scenario)
        } else {
            0
        }
    }

    fn changes(&self, set: u32, benchmark: u32, residual: u32, room: &mut [i32]) -> Option<&[i32]> {
        let numbers = self.sound.numbers.lend();
        let scenarios = numbers.scenarios as usize;
        if !inside(numbers.sets, set, benchmark, residual) {
            room.fill(0);
            return None;
        }
        if room.len() <= scenarios {
            return L::changes(numbers, set, benchmark, residual, room);
        }
        let (within, past) = room.split_at_mut(scenarios);
        past.fill(0);
        if let Some(row) = L::changes(numbers, set, benchmark, residual, within) {
            within.copy_from_slice(row);
        }
        None
    }
}
