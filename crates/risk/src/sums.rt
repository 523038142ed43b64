// The values at risk of the groups, added up, by residual and by half-year bucket; and that of the whole, from the losses of the buckets.
ghost use Rattle.std.specs.Prelude.{◌≡◌, ℕ, ◌+◌, ◌*◌, ◌<◌, ◌≤◌, pos, ◌+ℤ◌, unsigned_abs, Some, None, IfSome, length, slice_index_or};
ghost use Rattle.tables.specs.declared.row.TradeRow.{TradeRow};
ghost use Rattle.market.specs.Days.{residual_of};
ghost use Rattle.risk.specs.declared.grouping.Grouping.TheVariants.{ByResidual, ByHalfYear};
ghost use Rattle.risk.specs.Groups.{LoneTrade};
ghost use Rattle.risk.specs.Losses.{loss_of, var_of, AtRisk};
ghost use Rattle.risk.specs.Initial.{KnownRisks, KnownLone, GroupRisks, grouped_risk};

use super::gather::gather;
use super::grouping::Grouping;
use super::losses::{Scratch, add_losses, lone_trade, risk_of_losses};
use super::quotes::Quotes;
use market::day::Day;
use models::model::MarginModel;
use tables::row::{NO_TRADE, TradeRow};
use tables::standing::StandingTrades;

// By group: its value at risk, if it is known. An array, since the engine has no heap: 121 is the most groups that there are.
type RisksByGroup = [Option<u64>; 121];

// The values at risk by residual and by half-year bucket, added up, and as a whole.
#[derive(Clone, Copy)]
pub(crate) struct Sums {
    pub residuals: u64,
    pub halfyears: u64,
    pub whole: u64,
}

// What is known of the residual that all trades of a group are of.
fn lone_risk(day: Day, group: StandingTrades, residuals: &RisksByGroup) -> Option<u64>
    ensures { IfSome result (λ risk. (f : TradeRow) × LoneTrade day f group.entry.trades.now × (slice_index_or residuals.now (residual_of day f) None ≡ Some risk)) }
{
    let first = lone_trade(day, group)?;
    residuals[day.residual(first) as usize]
}

// The half-year buckets: the value at risk of each, and that of all of their trades as a whole.
#[derive(Drop)]
struct Buckets {
    risks: RisksByGroup,
    whole: u64,
}

impl<'a, M: MarginModel> Quotes<'a, M> {
    // The value at risk of each residual, trade by trade, so that no group without trades is walked. The groups share a room, which is made
    // once: an array, since the engine has no heap, and 64 is the most trades.
    fn residual_risks(&self, trades: StandingTrades, scratch: &mut Scratch) -> RisksByGroup
        ensures { GroupRisks (M.meaning self.now.model.now) self.now.day ByResidual trades.entry.trades.now result }
    {
        let mut room = [NO_TRADE; 64];
        let mut risks = [None; 121];
        for trade in trades.rows() {
            let key = Grouping::ByResidual.key(self.day, trade);
            if risks[key as usize].is_some() {
                continue;
            }
            let group = gather(Grouping::ByResidual, self.day, key, trades, &mut room);
            risks[key as usize] = Some(self.value_at_risk(group, scratch));
        }
        risks
    }

    // The value at risk of a bucket in which several residuals have trades: its losses are worked out once, and added to `all`.
    fn summed_bucket(
        &self,
        group: StandingTrades,
        changes: &mut [i32; 1000],
        losses: &mut [i64; 1000],
        all: &mut [i64],
    ) -> u64
        requires len { length all.old ≡ (M.meaning self.now.model.now).scenarios }
        requires small { (j : ℕ) → unsigned_abs (slice_index_or all.old j (pos 0)) ≤ 128000000000000 }
        ensures value { result ≡ var_of (M.meaning self.now.model.now) self.now.day group.entry.trades.now }
        ensures losses { (j : ℕ) → j < length all.old → slice_index_or all.new j (pos 0) ≡ slice_index_or all.old j (pos 0) +ℤ loss_of (M.meaning self.now.model.now) self.now.day j group.entry.trades.now }
    {
        let losses = &mut losses[..all.len()];
        self.write_losses(group, changes, losses);
        add_losses(losses, all);
        risk_of_losses(losses)
    }

    // The value at risk of a bucket, whose losses are added to `all`. What is known of the residual that all of its trades are of is not
    // worked out again.
    fn bucket_risk(
        &self,
        group: StandingTrades,
        residuals: &RisksByGroup,
        scratch: &mut Scratch,
        all: &mut [i64],
    ) -> u64
        requires known { KnownLone (M.meaning self.now.model.now) self.now.day group.trades.now residuals.now }
        requires len { length all.old ≡ (M.meaning self.now.model.now).scenarios }
        requires small { (j : ℕ) → unsigned_abs (slice_index_or all.old j (pos 0)) + 2000000000000 * length group.trades.now ≤ 128000000000000 }
        ensures value { result ≡ var_of (M.meaning self.now.model.now) self.now.day group.entry.trades.now }
        ensures losses { (j : ℕ) → j < length all.old → slice_index_or all.new j (pos 0) ≡ slice_index_or all.old j (pos 0) +ℤ loss_of (M.meaning self.now.model.now) self.now.day j group.entry.trades.now }
    {
        let Scratch { changes, losses } = scratch;
        let Some(risk) = lone_risk(self.day, group, residuals) else {
            return self.summed_bucket(group, changes, losses, all);
        };
        self.add_group(group, changes, all);
        risk
    }

    // The buckets, trade by trade. The losses of the whole are gathered from theirs, so that no trade's are worked out twice. By a test
    // and no `get_or_insert_with`, whose closure would have to say again what the function asks.
    #[tactic(auto, using(crate::proofs::Alones::known_lone))]
    fn buckets(
        &self,
        residuals: &RisksByGroup,
        trades: StandingTrades,
        scratch: &mut Scratch,
    ) -> Buckets
        requires { KnownRisks (M.meaning self.now.model.now) self.now.day ByResidual trades.trades.now residuals.now }
        ensures risks { GroupRisks (M.meaning self.now.model.now) self.now.day ByHalfYear trades.entry.trades.now result.risks }
        ensures whole { result.whole ≡ var_of (M.meaning self.now.model.now) self.now.day trades.entry.trades.now }
    {
        let mut losses = [0; 1000];
        let all = &mut losses[..self.model.scenarios() as usize];
        let mut room = [NO_TRADE; 64];
        let mut risks = [None; 121];
        for trade in trades.rows() {
            let key = Grouping::ByHalfYear.key(self.day, trade);
            if risks[key as usize].is_some() {
                continue;
            }
            let group = gather(Grouping::ByHalfYear, self.day, key, trades, &mut room);
            risks[key as usize] = Some(self.bucket_risk(group, residuals, scratch, all));
        }
        Buckets {
            risks,
            whole: risk_of_losses(all),
        }
    }

    // The values at risk of the groups, added up. A `for`: nothing bounds the sum of a chain.
    #[tactic(auto, unfolding(tables::specs::Numbers::sum_below))]
    fn sum_group_risks(
        &self,
        grouping: Grouping,
        risks: &RisksByGroup,
        trades: StandingTrades,
    ) -> u64
        requires { GroupRisks (M.meaning self.now.model.now) self.now.day grouping trades.trades.now risks.now }
        ensures value { result ≡ grouped_risk (M.meaning self.now.model.now) self.now.day grouping trades.entry.trades.now }
        ensures bound { result ≤ 2000000000000 * length trades.entry.trades.now }
    {
        let mut sum = 0;
        for risk in &risks[..grouping.groups() as usize] {
            sum += risk.unwrap_or(0);
        }
        sum
    }

    // X, by residual, Z, by half-year bucket, and Y, as a whole. Where the trades are all alike, one group has them all.
    #[tactic(auto, using(crate::proofs::Apart::var_words, crate::proofs::Apart::var_bound))]
    pub(crate) fn sums(&self, trades: StandingTrades) -> Sums
        ensures residuals { result.residuals ≡ grouped_risk (M.meaning self.now.model.now) self.now.day ByResidual trades.entry.trades.now }
        ensures halfyears { result.halfyears ≡ grouped_risk (M.meaning self.now.model.now) self.now.day ByHalfYear trades.entry.trades.now }
        ensures whole { result.whole ≡ var_of (M.meaning self.now.model.now) self.now.day trades.entry.trades.now }
        ensures words { AtRisk (M.meaning self.now.model.now) self.now.day trades.entry.trades.now result.whole }
        ensures bound { (result.residuals ≤ 2000000000000 * length trades.entry.trades.now) × (result.halfyears ≤ 2000000000000 * length trades.entry.trades.now) × (result.whole ≤ 2000000000000 * length trades.entry.trades.now) }
    {
        if let Some(first) = lone_trade(self.day, trades) {
            let whole = self.netted_risk(first, trades, &mut [0; 1000]);
            return Sums {
                residuals: whole,
                halfyears: whole,
                whole,
            };
        }
        let mut scratch = Scratch::new();
        let residuals = self.residual_risks(trades, &mut scratch);
        let buckets = self.buckets(&residuals, trades, &mut scratch);
        Sums {
            residuals: self.sum_group_risks(Grouping::ByResidual, &residuals, trades),
            halfyears: self.sum_group_risks(Grouping::ByHalfYear, &buckets.risks, trades),
            whole: buckets.whole,
        }
    }
}
