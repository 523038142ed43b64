// Two models as one: the scenarios of the first, then those of the second.
ghost use Rattle.std.specs.Prelude.{◌≡◌, ℕ, ◌<◌, length, pos, slice_index_or};
ghost use Rattle.models.specs.Joined.{joint, Joins};
ghost use Rattle.models.specs.JoinedLaws.{joint_lawful};

use super::model::MarginModel;

// Rates and tick values are two questions of the interface, and each passes its own on.
#[derive(Drop)]
pub struct Joined<F, S> {
    first: F,
    second: S,
}

impl<F: MarginModel, S: MarginModel> Joined<F, S> {
    // The two models joined. Scenarios past 1,000 are left out.
    pub fn new(first: F, second: S) -> Joined<F, S>
        ensures same { (result.first ≡ first) × (result.second ≡ second) }
        ensures joins { Joins (F.MarginModel.meaning first) (S.MarginModel.meaning second) (joint (F.MarginModel.meaning result.first) (S.MarginModel.meaning result.second)) }
    {
        Joined { first, second }
    }
}

// The changes in the scenarios from the first on, as many as there is room for: copied, where the model lends them.
fn write_changes<M: MarginModel>(
    model: &M,
    set: u32,
    benchmark: u32,
    residual: u32,
    room: &mut [i32],
)
    ensures { (j : ℕ) → j < length room.old → slice_index_or room.new j (pos 0) ≡ (M.meaning model.now).change set benchmark residual j }
{
    if let Some(row) = model.changes(set, benchmark, residual, room) {
        room.copy_from_slice(row);
    }
}

impl<F: MarginModel, S: MarginModel> MarginModel for Joined<F, S> {
    ghost meaning = { λ t. joint (F.MarginModel.meaning t.first) (S.MarginModel.meaning t.second) };

    ghost lawful = { λ t. joint_lawful _ _ (F.MarginModel.lawful t.first) (S.MarginModel.lawful t.second) };

    fn sets(&self) -> u32 {
        self.first.sets().min(self.second.sets())
    }

    fn scenarios(&self) -> u32 {
        (self.first.scenarios() + self.second.scenarios()).min(1000)
    }

    fn rate(&self, set: u32, benchmark: u32, residual: u32) -> u32 {
        if set < self.sets() {
            self.first.rate(set, benchmark, residual)
        } else {
            0
        }
    }

    fn tick(&self, set: u32, benchmark: u32, residual: u32) -> u32 {
        if set < self.sets() {
            self.first.tick(set, benchmark, residual)
        } else {
            0
        }
    }

    fn change(&self, set: u32, benchmark: u32, residual: u32, scenario: u32) -> i32 {
        if set >= self.sets() || scenario >= self.scenarios() {
            return 0;
        }
        let split = self.first.scenarios();
        if scenario < split {
            self.first.change(set, benchmark, residual, scenario)
        } else {
            self.second
                .change(set, benchmark, residual, scenario - split)
        }
    }

    fn changes(&self, set: u32, benchmark: u32, residual: u32, room: &mut [i32]) -> Option<&[i32]> {
        if set >= self.sets() {
            room.fill(0);
            return None;
        }
        let count = room.len().min(self.scenarios() as usize);
        let split = count.min(self.first.scenarios() as usize);
        let (within, past) = room.split_at_mut(count);
        let (first, second) = within.split_at_mut(split);
        write_changes(&self.first, set, benchmark, residual, first);
        write_changes(&self.second, set, benchmark, residual, second);
        past.fill(0);
        None
    }
}
