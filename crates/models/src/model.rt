// What every margin model answers. Asked outside of its counts, the 4 benchmarks or the residuals 0 to
// 120, it answers 0.
ghost use Rattle.std.specs.Prelude.{◌≡◌, length};
ghost use Rattle.models.specs.Meaning.{Meaning, Lawful, within};
ghost use Rattle.models.specs.Rows.{Row, LentOrWritten};

// Set, benchmark and residual stay three parameters: every make passes them on or asks one of them, so a
// struct would be built at each call only to be taken apart.
pub trait MarginModel {
    // What the model means.
    ghost meaning: { Self → Meaning };

    // Its numbers are within their limits, and 0 outside.
    ghost lawful: { (x : Self) → Lawful (meaning x) };

    // How many sets it has.
    fn sets(&self) -> u32
        ensures { result ≡ (meaning self.now).sets };

    // How many scenarios it has.
    fn scenarios(&self) -> u32
        ensures { result ≡ (meaning self.now).scenarios };

    // The rate, counted in 0.0001 per cent.
    fn rate(&self, set: u32, benchmark: u32, residual: u32) -> u32
        ensures { result ≡ (meaning self.now).rate set benchmark residual };

    // The tick value, in thousandths of a paisa per lakh and unit of rate.
    fn tick(&self, set: u32, benchmark: u32, residual: u32) -> u32
        ensures { result ≡ (meaning self.now).tick set benchmark residual };

    // What one lakh of a pay-fixed swap gains in a scenario, in paise.
    fn change(&self, set: u32, benchmark: u32, residual: u32, scenario: u32) -> i32
        ensures { result ≡ (meaning self.now).change set benchmark residual scenario };

    // The changes in the scenarios from the first on, as many as `room` has places: lent where they lie, else written into `room`.
    fn changes(&self, set: u32, benchmark: u32, residual: u32, room: &mut [i32]) -> Option<&[i32]>
        ensures { LentOrWritten (Row ((meaning self.now).change set benchmark residual) (length room.old)) result room.new };
}

// A model that is borrowed is a model.
impl<M: MarginModel> MarginModel for &M {
    ghost meaning = { λ m. M.MarginModel.meaning m.now };

    ghost lawful = { λ m. M.MarginModel.lawful m.now };

    fn sets(&self) -> u32 {
        (*self).sets()
    }

    fn scenarios(&self) -> u32 {
        (*self).scenarios()
    }

    fn rate(&self, set: u32, benchmark: u32, residual: u32) -> u32 {
        (*self).rate(set, benchmark, residual)
    }

    fn tick(&self, set: u32, benchmark: u32, residual: u32) -> u32 {
        (*self).tick(set, benchmark, residual)
    }

    fn change(&self, set: u32, benchmark: u32, residual: u32, scenario: u32) -> i32 {
        (*self).change(set, benchmark, residual, scenario)
    }

    fn changes(&self, set: u32, benchmark: u32, residual: u32, room: &mut [i32]) -> Option<&[i32]> {
        (*self).changes(set, benchmark, residual, room)
    }
}

// Whether a model of `count` sets has that set, benchmark and residual.
pub fn inside(count: u32, set: u32, benchmark: u32, residual: u32) -> bool
    ensures { result ≡ within count set benchmark residual }
{
    set < count && benchmark < 4 && residual < 121
}
