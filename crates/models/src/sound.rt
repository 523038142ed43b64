// Numbers that are known to make a model of one layout. `check` gives them; where it is known without a
// check that numbers make one, they are written as they stand.
ghost use Rattle.std.specs.Prelude.{◌≡◌, ⊤};
ghost use Rattle.models.specs.Sound.{Sound};

use super::layout::Layout;
use super::numbers::Lend;
use std::alloc::AllocError;
use std::marker::PhantomData;

// `Clone` and `Copy` are written by hand: no derive writes them beside a ghost field at a type parameter.
#[derive(Drop)]
pub struct SoundNumbers<N: Lend, L: Layout> {
    pub numbers: N,
    pub layout: PhantomData<L>,
    ghost ok: { Sound L.CELLS L.LIMIT (N.tables numbers) },
}

impl<N: Lend + Copy, L: Layout> Clone for SoundNumbers<N, L> {
    ghost is_clone = { λ x y. y ≡ x };

    ghost is_infallible = { λ _. ⊤ };

    fn clone(&self) -> Result<SoundNumbers<N, L>, AllocError> {
        Ok(*self)
    }
}

impl<N: Lend + Copy, L: Layout> Copy for SoundNumbers<N, L> {}
