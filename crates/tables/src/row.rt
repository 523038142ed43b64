// The plain rows that a caller lends: any numbers may stand in them.
// Codes, flags and counts are numbers here, and the layout is C's, since the C interface passes these rows.

// A place for a trade. All zero where no trade stands.
// `benchmark` and `side` are codes, `maturity` is a month number, `notional` is in lakh.
#[repr(C)]
#[derive(Clone, Copy, PartialEq, Eq)]
pub struct TradeRow {
    pub number: u32,
    pub benchmark: u8,
    pub side: u8,
    pub maturity: u16,
    pub notional: u32,
    pub rate: u32,
}

pub const NO_TRADE: TradeRow = TradeRow {
    number: 0,
    benchmark: 0,
    side: 0,
    maturity: 0,
    notional: 0,
    rate: 0,
};

// The concentration levels of a family: of its initial margin and of its gross notional.
#[repr(C)]
#[derive(Clone, Copy, PartialEq, Eq)]
pub struct Levels {
    pub initial: u8,
    pub gross: u8,
}

pub const NO_LEVELS: Levels = Levels {
    initial: 0,
    gross: 0,
};

// The record of an account. `trades` is how many trades stand, `own` and `second` are its flags.
#[repr(C)]
#[derive(Clone, Copy, PartialEq, Eq)]
pub struct AccountRow {
    pub cash: u64,
    pub obligation: u64,
    pub available: u64,
    pub shortfall: u64,
    pub lots: [u32; 32],
    pub overnight: Levels,
    pub forward: Levels,
    pub trades: u8,
    pub own: bool,
    pub second: bool,
}

// A security that may be lodged: paise per Rs 100 of face, per cent of haircut.
#[repr(C)]
#[derive(Clone, Copy, PartialEq, Eq)]
pub struct SecurityRow {
    pub price: u32,
    pub haircut: u32,
    pub listed: bool,
}
