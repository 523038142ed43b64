// What a caller in C lends: numbers alone, of which nothing is known. Flags are numbers, too, since a byte in C may be any.
use tables::row::Levels;

// The record of an account.
#[repr(C)]
#[derive(Clone, Copy)]
pub struct CAccount {
    pub cash: u64,
    pub obligation: u64,
    pub available: u64,
    pub shortfall: u64,
    pub lots: [u32; 32],
    pub overnight: Levels,
    pub forward: Levels,
    pub trades: u8,
    pub own: u8,
    pub second: u8,
}

#[repr(C)]
#[derive(Clone, Copy)]
pub struct CSecurity {
    pub price: u32,
    pub haircut: u32,
    pub listed: u8,
}

// A family. `given` is 1 where averages are given, and 2 more where thresholds are. Triggers and calm marks stand by themselves, as the
// header has them: they may not be given.
#[repr(C)]
#[derive(Clone, Copy)]
pub struct CFamily {
    pub initial: u64,
    pub gross: u64,
    pub volatility: u32,
    pub triggers: [u32; 5],
    pub marks: [u32; 5],
    pub given: u8,
    pub slot: u8,
    pub checks: u8,
    pub calm: u8,
}

#[repr(C)]
#[derive(Clone, Copy)]
pub struct CHouse {
    pub overnight: CFamily,
    pub forward: CFamily,
    pub accounts: u32,
    pub set: u32,
    pub percent: u32,
    pub month: u16,
    pub securities: [CSecurity; 32],
}
