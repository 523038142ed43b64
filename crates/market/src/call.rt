// The calls of the market. Securities, families, slots and the listing are plain numbers by a rule of the
// project: any may come, and each has a question of its own that refuses what is out of range.
use super::state::{Averages, Thresholds};

// What is published of a security: its number, paise per Rs 100 of face, per cent of haircut, listed 0 (no) or 1 (yes).
#[derive(Clone, Copy)]
pub struct Quote {
    pub security: u32,
    pub price: u32,
    pub haircut: u32,
    pub listed: u32,
}

// A volatility check: the code of the family, the slot of the day, and five returns in millionths.
#[derive(Clone, Copy)]
pub struct Check {
    pub family: u32,
    pub slot: u32,
    pub returns: [u32; 5],
}

// Set: the set of the model in use. Averages and thresholds name a family by its code. Volatility: a volatility check.
// Close: the end of the day. Month: the current month.
#[derive(Clone, Copy)]
pub enum MarketCall {
    Set(u32),
    Price(Quote),
    StepUp(u32),
    Averages(u32, Averages),
    Thresholds(u32, Thresholds),
    Volatility(Check),
    Close,
    Month(u16),
}
