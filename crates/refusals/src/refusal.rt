// Why a call is refused: the first question whose answer is no.
ghost use Rattle.std.specs.Prelude.{◌≡◌, is_ok};
ghost use Rattle.refusals.specs.Refusals.{number_of, asked};

#[derive(Clone, Copy, Debug, PartialEq, Eq)]
pub enum Refusal {
    // The tables have not the right lengths, or a record or place is out of range.
    Tables = 1,
    // There is no such account.
    NoAccount = 2,
    // The benchmark is none of the four.
    WrongBenchmark = 3,
    // The side is neither pay nor receive.
    WrongSide = 4,
    // The notional is not 1 to 1,000,000.
    WrongNotional = 5,
    // The fixed rate is above 200,000.
    WrongRate = 6,
    // The maturity is before the current month or more than 120 months after it.
    WrongMaturity = 7,
    // A trade of the account has this number already.
    NumberUsed = 8,
    // The account has 64 trades.
    TooManyTrades = 9,
    // The account is restricted, and its obligation would not be lower.
    NotLower = 10,
    // What would be available does not reach the obligation.
    NotCovered = 11,
    // No trade of the account has this number.
    NoTrade = 12,
    // The amount is not 1 to 10^14.
    WrongAmount = 13,
    // The account would hold more than it may.
    OverLimit = 14,
    // The account does not hold so much.
    NotHeld = 15,
    // What would be left does not reach the obligation.
    DrawnShort = 16,
    // There is no such security.
    NoSecurity = 17,
    // The lots are not 1 to 1,000,000.
    WrongLots = 18,
    // The model has no such set.
    NoSet = 19,
    // Price, haircut or listing is out of range.
    WrongPrice = 20,
    // The step-up is above 100.
    WrongStepUp = 21,
    // There is no such family.
    NoFamily = 22,
    // An average is not 1 to 10^16.
    WrongAverages = 23,
    // A trigger or calm mark is out of range.
    WrongThresholds = 24,
    // A return is above 1,000,000.
    WrongReturns = 25,
    // The family has no thresholds yet.
    NoThresholds = 26,
    // The slot is not 1 to 4, or not above the last of the day.
    WrongSlot = 27,
    // The month is not later than the current one, or above 1199.
    WrongMonth = 28,
    // The accounts are not 1 to 32.
    WrongAccounts = 29,
    // The opening month is above 1199.
    WrongOpeningMonth = 30,
}

impl Refusal {
    pub fn number(self) -> u8
        ensures { result ≡ number_of self }
    {
        self as u8
    }
}

impl From<Refusal> for u8 {
    ghost from_gives = { λ r n. n ≡ number_of r };

    fn from(refusal: Refusal) -> u8 {
        refusal.number()
    }
}

// One question: go on if the answer is yes.
pub fn ask(yes: bool, refusal: Refusal) -> Result<(), Refusal>
    ensures value { result ≡ asked yes refusal }
    ensures answer { yes ≡ is_ok result }
{
    if yes { Ok(()) } else { Err(refusal) }
}
