// Calls by their fields.
ghost use Rattle.std.specs.Prelude.{replicate, [], ◌∷◌, ◌++◌};
ghost use Rattle.script.specs.Commands.{trade_fields, five};
ghost use Rattle.script.specs.Fields.{bits32, bits64};

use super::fields::FromFields;
use super::reason::Reason;
use market::call::{Check, Quote};
use market::state::{Averages, Thresholds};
use scan::scan::Scan;
use tables::row::TradeRow;

impl<const N: usize> FromFields for [u32; N] {
    ghost wants = { replicate N bits32 };

    ghost numbers = { λ xs. xs };

    fn read(scan: &mut Scan) -> Result<[u32; N], Reason> {
        let mut xs = [0; N];
        for x in &mut xs {
            *x = u32::read(scan)?;
        }
        Ok(xs)
    }
}

// A trade without its account.
impl FromFields for TradeRow {
    ghost wants = { trade_fields };

    ghost numbers = { λ x. x.number ∷ x.benchmark ∷ x.side ∷ x.maturity ∷ x.notional ∷ x.rate ∷ [] };

    fn read(scan: &mut Scan) -> Result<TradeRow, Reason> {
        let (number, benchmark, side) = FromFields::read(scan)?;
        let (maturity, notional, rate) = FromFields::read(scan)?;
        Ok(TradeRow {
            number,
            benchmark,
            side,
            maturity,
            notional,
            rate,
        })
    }
}

impl FromFields for Quote {
    ghost wants = { bits32 ∷ bits32 ∷ bits32 ∷ bits32 ∷ [] };

    ghost numbers = { λ x. x.security ∷ x.price ∷ x.haircut ∷ x.listed ∷ [] };

    fn read(scan: &mut Scan) -> Result<Quote, Reason> {
        let (security, price) = FromFields::read(scan)?;
        let (haircut, listed) = FromFields::read(scan)?;
        Ok(Quote {
            security,
            price,
            haircut,
            listed,
        })
    }
}

impl FromFields for Averages {
    ghost wants = { bits64 ∷ bits64 ∷ [] };

    ghost numbers = { λ x. x.initial ∷ x.gross ∷ [] };

    fn read(scan: &mut Scan) -> Result<Averages, Reason> {
        let (initial, gross) = FromFields::read(scan)?;
        Ok(Averages { initial, gross })
    }
}

impl FromFields for Thresholds {
    ghost wants = { five ++ five };

    ghost numbers = { λ x. x.triggers ++ x.calm };

    fn read(scan: &mut Scan) -> Result<Thresholds, Reason> {
        let (triggers, calm) = FromFields::read(scan)?;
        Ok(Thresholds { triggers, calm })
    }
}

impl FromFields for Check {
    ghost wants = { bits32 ∷ bits32 ∷ five };

    ghost numbers = { λ x. x.family ∷ x.slot ∷ x.returns };

    fn read(scan: &mut Scan) -> Result<Check, Reason> {
        let (family, slot, returns) = FromFields::read(scan)?;
        Ok(Check {
            family,
            slot,
            returns,
        })
    }
}
