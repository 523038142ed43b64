// Why no model is made.
ghost use Rattle.std.specs.Prelude.{◌≡◌};
ghost use Rattle.models.specs.Refusals.{number_of, place_of};

#[derive(Clone, Copy, Debug, PartialEq, Eq)]
pub enum MakingRefusal {
    // The counts of sets and scenarios are not within their limits.
    WrongCounts,
    // A table is not as long as the counts ask.
    WrongLengths,
    // The number at this place is out of range, and none before it is.
    // Places count from 0 through rates, tick values and changes.
    OutOfRange(usize),
    // Two models have more than 1,000 scenarios together.
    TooManyScenarios,
}

impl MakingRefusal {
    // The refusal's number. A method and no `From`: a refusal is this number and a place.
    pub fn number(self) -> u32
        ensures { result ≡ number_of self }
    {
        match self {
            MakingRefusal::WrongCounts => 31,
            MakingRefusal::WrongLengths => 32,
            MakingRefusal::OutOfRange(_) => 33,
            MakingRefusal::TooManyScenarios => 34,
        }
    }

    // The place that is out of range, if that is the reason.
    pub fn place(self) -> Option<usize>
        ensures { result ≡ place_of self }
    {
        match self {
            MakingRefusal::OutOfRange(place) => Some(place),
            _ => None,
        }
    }
}
