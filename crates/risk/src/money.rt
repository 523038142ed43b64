// What of a signed sum is above 0, and what is below. Two functions: one of them at `-sum` would not take every sum.
ghost use Rattle.std.specs.Prelude.{◌≡◌};
ghost use Rattle.risk.specs.Signs.{gain_of, lost_of};

pub fn gain(sum: i64) -> u64
    ensures { result ≡ gain_of sum }
{
    if sum < 0 { 0 } else { sum as u64 }
}

pub fn lost(sum: i64) -> u64
    ensures { result ≡ lost_of sum }
{
    if sum < 0 { sum.unsigned_abs() } else { 0 }
}
