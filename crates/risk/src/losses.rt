// The value at risk of a group. Where all of its trades are of one benchmark and residual, their net times the changes are the losses;
// other groups are added up trade by trade, where the inner loop runs over the scenarios.
ghost use Rattle.std.specs.Prelude.{◌≡◌, ℕ, ◌+◌, ◌*◌, ◌-◌, ◌<◌, ◌≤◌, true, List, IfSome, unwrap_or, length, pos, ◌+ℤ◌, ◌*ℤ◌, neg_ℤ, slice_index_or, unsigned_abs};
ghost use Rattle.tail.specs.Tail.{ranked};
ghost use Rattle.models.specs.Meaning.{Meaning};
ghost use Rattle.market.specs.Days.{residual_of};
ghost use Rattle.market.specs.declared.day.Day.{Day};
ghost use Rattle.risk.specs.Signs.{signed_sum, negated_for};
ghost use Rattle.tables.specs.Codes.{side_of};
ghost use Rattle.tables.specs.declared.codes.Side.TheVariants.{Pay};
ghost use Rattle.tables.specs.declared.row.TradeRow.{TradeRow};
ghost use Rattle.risk.specs.Groups.{all_alike, LoneTrade};
ghost use Rattle.risk.specs.Losses.{leg_of, loss_of, losses_of, tail_size, var_of};

use super::adding::add_row;
use super::money::gain;
use super::quotes::Quotes;
use super::trade::Trade;
use market::day::Day;
use models::model::MarginModel;
use tables::codes::Side;
use tables::row::TradeRow;
use tables::standing::StandingTrades;
use tail::keeper::kth_highest;
use tail::order::Ranked;

// Room for a trade's changes, where they are written, and for a group's losses, one for each scenario: made once and lent to each step.
// Arrays, since the engine has no heap: no model has more than 1,000 scenarios.
#[derive(Drop)]
pub(crate) struct Scratch {
    pub changes: [i32; 1000],
    pub losses: [i64; 1000],
}

impl Scratch {
    pub(crate) fn new() -> Scratch {
        Scratch {
            changes: [0; 1000],
            losses: [0; 1000],
        }
    }
}

// The lowest of the tail, if there are any entries. The tail of 1,000 takes ten places, in fixed memory as there is no heap. They are the
// caller's: of a room `[T; 10]` made here, whose type is not known, the proof that it fits into memory did not close.
fn lowest_of_tail<T: Ranked + Copy>(entries: &[T], places: &mut [T; 10]) -> Option<T>
    requires { length entries.now ≤ 1000 }
    ensures { (none : T) → unwrap_or result none ≡ slice_index_or (ranked T.reaches entries.now) (tail_size (length entries.now) - 1) none }
{
    let size = (entries.len() / 100).max(1);
    kth_highest(entries, &mut places[..size])
}

// Whether all trades of a group are of the benchmark and the residual of `first`.
fn are_alike(day: Day, first: &TradeRow, group: StandingTrades) -> bool
    ensures { result ≡ all_alike day first.now group.entry.trades.now }
{
    let residual = day.residual(first);
    group.rows().iter().all(|trade| trade.benchmark == first.benchmark
        && day.residual(trade) == residual)
}

// The first trade of a group, where all of its trades are of one benchmark and residual.
pub(crate) fn lone_trade<'a>(day: Day, group: StandingTrades<'a>) -> Option<&'a TradeRow>
    ensures { IfSome result (λ first. LoneTrade day first.now group.entry.trades.now) }
{
    let first = group.rows().first()?;
    are_alike(day, first, group).then_some(first)
}

// The notionals of a group: receive-fixed plus, pay-fixed minus. A `for`: nothing bounds the signed sum of a chain.
fn net_of(group: StandingTrades) -> i64
    ensures value { result ≡ signed_sum (λ (t : TradeRow). negated_for Pay (side_of t.side) (pos t.notional *ℤ pos 1)) group.entry.trades.now }
    ensures bound { unsigned_abs result ≤ 64000000 }
{
    let mut net = 0i64;
    for trade in group.rows() {
        net += Trade::new(trade).flow(Side::Pay, 1);
    }
    net
}

// The value at risk of losses, one for each scenario.
pub(crate) fn risk_of_losses(losses: &[i64]) -> u64
    requires { length losses.now ≤ 1000 }
    ensures { (m : Meaning) (d : Day) (ts : List TradeRow) → losses.now ≡ losses_of m d ts → result ≡ var_of m d ts }
{
    gain(lowest_of_tail(losses, &mut [0; 10]).unwrap_or(0))
}

// Adds the losses of a group to those of more trades.
pub(crate) fn add_losses(losses: &[i64], all: &mut [i64])
    requires lengths { length losses.now ≡ length all.old }
    requires small { (j : ℕ) → (unsigned_abs (slice_index_or losses.now j (pos 0)) ≤ 128000000000000) × (unsigned_abs (slice_index_or all.old j (pos 0)) ≤ 128000000000000) }
    ensures { (j : ℕ) → j < length all.old → slice_index_or all.new j (pos 0) ≡ slice_index_or all.old j (pos 0) +ℤ slice_index_or losses.now j (pos 0) }
{
    for (scenario, loss) in all.iter_mut().enumerate() {
        *loss += losses[scenario];
    }
}

// Negates changes where they stand.
fn negate(changes: &mut [i32])
    requires { (j : ℕ) → unsigned_abs (slice_index_or changes.old j (pos 0)) ≤ 2000000 }
    ensures { (j : ℕ) → j < length changes.old → slice_index_or changes.new j (pos 0) ≡ neg_ℤ (slice_index_or changes.old j (pos 0)) }
{
    for change in changes.iter_mut() {
        *change = -*change;
    }
}

// Writes the changes of a row, negated.
fn write_negated(row: &[i32], room: &mut [i32])
    requires lengths { length row.now ≡ length room.old }
    requires small { (j : ℕ) → unsigned_abs (slice_index_or row.now j (pos 0)) ≤ 2000000 }
    ensures { (j : ℕ) → j < length room.old → slice_index_or room.new j (pos 0) ≡ neg_ℤ (slice_index_or row.now j (pos 0)) }
{
    for (scenario, change) in room.iter_mut().enumerate() {
        *change = -row[scenario];
    }
}

impl<'a, M: MarginModel> Quotes<'a, M> {
    // Adds what a trade loses in each scenario; `room` is for its changes, where none are lent.
    fn add_legs(&self, trade: Trade, room: &mut [i32], losses: &mut [i64])
        requires lengths { length room.old ≡ length losses.old }
        requires small { (j : ℕ) → unsigned_abs (slice_index_or losses.old j (pos 0)) ≤ 126000000000000 }
        ensures { (j : ℕ) → j < length losses.old → slice_index_or losses.new j (pos 0) ≡ slice_index_or losses.old j (pos 0) +ℤ leg_of (M.meaning self.now.model.now) self.now.day j trade.entry.row.now }
    {
        let row = self.changes(trade.row, room).unwrap_or(room);
        add_row(losses, trade.signed_notional(), row);
    }

    // The changes of a trade's residual as they lie, or negated in `room` where the net is below 0.
    fn signed_changes<'r>(&'r self, trade: &TradeRow, net: i64, room: &'r mut [i32]) -> &'r [i32]
        ensures len { length result.now ≡ length room.old }
        ensures value { (j : ℕ) → j < length room.old → pos (unsigned_abs net) *ℤ slice_index_or result.now j (pos 0) ≡ net *ℤ (M.meaning self.now.model.now).change self.now.day.set trade.now.benchmark (residual_of self.now.day trade.now) j }
    {
        let lent = self.changes(trade, room);
        if net > 0 {
            return lent.unwrap_or(room);
        }
        match lent {
            Some(row) => write_negated(row, room),
            None => negate(room),
        }
        room
    }

    // The value at risk of trades of one benchmark and residual, those of `first`.
    pub(crate) fn netted_risk(
        &self,
        first: &TradeRow,
        group: StandingTrades,
        changes: &mut [i32; 1000],
    ) -> u64
        requires { all_alike self.now.day first.now group.trades.now ≡ true }
        ensures { result ≡ var_of (M.meaning self.now.model.now) self.now.day group.entry.trades.now }
    {
        let net = net_of(group);
        if net == 0 {
            return 0;
        }
        let count = self.model.scenarios() as usize;
        let row = self.signed_changes(first, net, &mut changes[..count]);
        let lowest = lowest_of_tail(row, &mut [0; 10]).unwrap_or(0);
        gain(lowest as i64) * net.unsigned_abs()
    }

    // Adds what the trades of a group lose in each scenario.
    pub(crate) fn add_group(
        &self,
        group: StandingTrades,
        changes: &mut [i32; 1000],
        losses: &mut [i64],
    )
        requires len { length losses.old ≡ (M.meaning self.now.model.now).scenarios }
        requires small { (j : ℕ) → unsigned_abs (slice_index_or losses.old j (pos 0)) + 2000000000000 * length group.trades.now ≤ 128000000000000 }
        ensures { (j : ℕ) → j < length losses.old → slice_index_or losses.new j (pos 0) ≡ slice_index_or losses.old j (pos 0) +ℤ loss_of (M.meaning self.now.model.now) self.now.day j group.entry.trades.now }
    {
        let changes = &mut changes[..losses.len()];
        for trade in group.rows() {
            self.add_legs(Trade::new(trade), changes, losses);
        }
    }

    // Writes what the trades of a group lose in each scenario.
    pub(crate) fn write_losses(
        &self,
        group: StandingTrades,
        changes: &mut [i32; 1000],
        losses: &mut [i64],
    )
        requires { length losses.old ≡ (M.meaning self.now.model.now).scenarios }
        ensures { losses.new ≡ losses_of (M.meaning self.now.model.now) self.now.day group.entry.trades.now }
    {
        losses.fill(0);
        self.add_group(group, changes, losses);
    }

    // The value at risk of trades of any residuals.
    fn summed_risk(
        &self,
        group: StandingTrades,
        changes: &mut [i32; 1000],
        losses: &mut [i64; 1000],
    ) -> u64
        ensures { result ≡ var_of (M.meaning self.now.model.now) self.now.day group.entry.trades.now }
    {
        let losses = &mut losses[..self.model.scenarios() as usize];
        self.write_losses(group, changes, losses);
        risk_of_losses(losses)
    }

    // The value at risk of a group: netted where its trades are all alike, else summed.
    pub(crate) fn value_at_risk(&self, group: StandingTrades, scratch: &mut Scratch) -> u64
        ensures { result ≡ var_of (M.meaning self.now.model.now) self.now.day group.entry.trades.now }
    {
        let Scratch { changes, losses } = scratch;
        match lone_trade(self.day, group) {
            Some(first) => self.netted_risk(first, group, changes),
            None => self.summed_risk(group, changes, losses),
        }
    }
}
