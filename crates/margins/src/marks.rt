// What trades are worth at the current rates.
ghost use Rattle.std.specs.Prelude.{◌≡◌, ◌*◌, ◌≤◌, length, pos, ◌*ℤ◌, unsigned_abs};
ghost use Rattle.margins.specs.Marks.{mark_of, marks_of, credit_of};

use models::model::MarginModel;
use risk::money::gain;
use risk::quotes::Quotes;
use risk::trade::Trade;
use tables::codes::Side;
use tables::standing::StandingTrades;

// What a flow counts at a tick value, in thousandths of a paisa.
fn worth(flow: i64, tick: u32) -> i64
    requires { (unsigned_abs flow ≤ 200000000000) × (tick ≤ 100000) }
    ensures value { result ≡ flow *ℤ pos tick }
    ensures bound { unsigned_abs result ≤ 20000000000000000 }
{
    flow * tick as i64
}

// The mark of a trade, in paise.
fn mark<M: MarginModel>(quotes: &Quotes<M>, trade: Trade) -> i64
    ensures value { result ≡ mark_of (M.meaning quotes.now.model.now) quotes.now.day trade.entry.row.now }
    ensures bound { unsigned_abs result ≤ 20000000000000 }
{
    let gap = quotes.rate(trade.row) as i32 - trade.row.rate as i32;
    worth(trade.flow(Side::Receive, gap), quotes.tick(trade.row)).div_euclid(1000)
}

// The marks of the trades, added up. A `for`: nothing bounds the signed sum of a chain.
#[tactic(auto, unfolding(crate::specs::Marks::marks_of))]
pub(crate) fn mark_to_market<M: MarginModel>(quotes: &Quotes<M>, trades: StandingTrades) -> i64
    ensures value { result ≡ marks_of (M.meaning quotes.now.model.now) quotes.now.day trades.entry.trades.now }
    ensures bound { unsigned_abs result ≤ 20000000000000 * length trades.entry.trades.now }
{
    let mut sum = 0i64;
    for trade in trades.rows() {
        sum += mark(quotes, Trade::new(trade));
    }
    sum
}

// What of a gain counts as credit.
pub(crate) fn margin_credit(sum: i64) -> u64
    requires { unsigned_abs sum ≤ 2000000000000000 }
    ensures value { result ≡ credit_of sum }
    ensures bound { result ≤ unsigned_abs sum }
{
    gain(sum) * 95 / 100
}
