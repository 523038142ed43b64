// The cover: what the house bears of its constituents' shortfalls. Of 31 constituents it is at most 93 × 10^15 paise.
ghost use Rattle.std.specs.Prelude.{◌≤◌};

pub mod value;

#[derive(Clone, Copy)]
pub struct Cover {
    paise: u64,
    ghost most: { paise ≤ 93000000000000000 },
}
