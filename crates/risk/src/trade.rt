// A trade within its limits.
ghost use Rattle.std.specs.Prelude.{◌≡◌, ◌*◌, ◌≤◌, pos, ◌*ℤ◌, unsigned_abs};
ghost use Rattle.risk.specs.Groups.{TradeFits};
ghost use Rattle.risk.specs.Signs.{negated_for};
ghost use Rattle.tables.specs.Codes.{side_of};
ghost use Rattle.tables.specs.declared.codes.Side.TheVariants.{Pay};

use tables::codes::Side;
use tables::row::TradeRow;

#[derive(Clone, Copy)]
pub struct Trade<'a> {
    pub row: &'a TradeRow,
    ghost fits: { TradeFits row.now },
}

impl<'a> Trade<'a> {
    pub fn new(row: &'a TradeRow) -> Trade<'a>
        requires { TradeFits row.now }
        ensures { result.row.now ≡ row.now }
    {
        Trade { row }
    }

    pub fn side(self) -> Side
        ensures { result ≡ side_of self.entry.row.now.side }
    {
        Side::from(self.row.side)
    }

    // The notional; negated for trades that pay the fixed rate. In 32 bits, so that the machine multiplies it by a change in one step.
    pub(crate) fn signed_notional(self) -> i32
        ensures value { result ≡ negated_for Pay (side_of self.entry.row.now.side) (pos self.entry.row.now.notional) }
        ensures bound { unsigned_abs result ≤ 1000000 }
    {
        let notional = self.row.notional as i32;
        match self.side() {
            Side::Pay => -notional,
            Side::Receive => notional,
        }
    }

    // The notional, times what each lakh comes to.
    fn times(self, each: i32) -> i64
        ensures value { result ≡ pos self.entry.row.now.notional *ℤ each }
        ensures bound { unsigned_abs result ≤ 1000000 * unsigned_abs each }
        ensures fits { unsigned_abs result ≤ 2147483648000000 }
    {
        self.row.notional as i64 * each as i64
    }

    // The notional, times what each lakh comes to; negated for trades on the side `negated`.
    pub fn flow(self, negated: Side, each: i32) -> i64
        ensures value { result ≡ negated_for negated (side_of self.entry.row.now.side) (pos self.entry.row.now.notional *ℤ each) }
        ensures bound { unsigned_abs result ≤ 1000000 * unsigned_abs each }
    {
        let flow = self.times(each);
        if self.side() == negated { -flow } else { flow }
    }
}
