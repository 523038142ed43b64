// The restriction flags.
ghost use Rattle.std.specs.Prelude.{◌≡◌, ◌*◌, ◌≤◌, ◌||◌, ◌==◌, true, false, if◌then◌else◌, nat_lt};
ghost use Rattle.margins.specs.Flags.{own_after, second_after};

// A flag, from what it was: set where the obligation is above `sets` per cent of what is available, cleared where it is below
// `clears` per cent or 0.
// Obligation and available go as two numbers: a struct of them would be made of a record at each call only to be taken apart.
fn flag_after(was: bool, obligation: u64, available: u64, sets: u128, clears: u128) -> bool
    requires { (sets ≤ 100) × (clears ≤ 100) }
    ensures { result ≡ (if nat_lt (sets * available) (100 * obligation) then true else (if nat_lt (100 * obligation) (clears * available) || obligation == 0 then false else was)) }
{
    let owed = 100 * obligation as u128;
    if owed > sets * available as u128 {
        true
    } else if owed < clears * available as u128 || obligation == 0 {
        false
    } else {
        was
    }
}

// The own flag, from what it was.
pub fn own_flag(was: bool, obligation: u64, available: u64) -> bool
    ensures { result ≡ own_after was obligation available }
{
    flag_after(was, obligation, available, 95, 90)
}

// A constituent's second flag, from what it was and whether the house is restricted.
pub fn second_flag(restricted: bool, was: bool, obligation: u64, available: u64) -> bool
    ensures { result ≡ second_after restricted was obligation available }
{
    restricted && flag_after(was, obligation, available, 90, 70)
}
