// Making a cover, and reading it.
ghost use Rattle.std.specs.Prelude.{◌≡◌, ◌≤◌, min};

use super::Cover;

impl Cover {
    // What a constituent bears.
    pub fn none() -> Cover
        ensures { result.paise ≡ 0 }
    {
        Cover { paise: 0 }
    }

    // A sum of shortfalls. It is held at the most that 31 constituents can come to.
    pub fn of(sum: u64) -> Cover
        ensures { result.paise ≡ min sum 93000000000000000 }
    {
        Cover {
            paise: sum.min(93_000_000_000_000_000),
        }
    }

    pub fn paise(self) -> u64
        ensures value { result ≡ self.paise }
        ensures bound { result ≤ 93000000000000000 }
    {
        self.paise
    }
}
