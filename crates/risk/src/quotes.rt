// A model on a day.
ghost use Rattle.std.specs.Prelude.{◌≡◌, length};
ghost use Rattle.models.specs.Rows.{Row, LentOrWritten};
ghost use Rattle.market.specs.Days.{residual_of};

use market::day::Day;
use models::model::MarginModel;
use tables::row::TradeRow;

// What a model says of trades on a day. Each question works the residual out, as the model's own questions want set, benchmark and
// residual.
#[derive(Drop)]
pub struct Quotes<'a, M> {
    pub model: &'a M,
    pub day: Day,
}

impl<'a, M: MarginModel> Quotes<'a, M> {
    // The current rate of a trade.
    pub fn rate(&self, trade: &TradeRow) -> u32
        ensures { result ≡ (M.meaning self.now.model.now).rate self.now.day.set trade.now.benchmark (residual_of self.now.day trade.now) }
    {
        let residual = self.day.residual(trade);
        self.model
            .rate(self.day.set, trade.benchmark as u32, residual)
    }

    // What a unit of the rate is worth to a lakh, in thousandths of a paisa.
    pub fn tick(&self, trade: &TradeRow) -> u32
        ensures { result ≡ (M.meaning self.now.model.now).tick self.now.day.set trade.now.benchmark (residual_of self.now.day trade.now) }
    {
        let residual = self.day.residual(trade);
        self.model
            .tick(self.day.set, trade.benchmark as u32, residual)
    }

    // What a lakh of a pay-fixed trade gains in the scenarios, in paise: from the first on, as many as `room` has places, lent where
    // they lie, else written into `room`.
    pub fn changes(&self, trade: &TradeRow, room: &mut [i32]) -> Option<&[i32]>
        ensures { LentOrWritten (Row ((M.meaning self.now.model.now).change self.now.day.set trade.now.benchmark (residual_of self.now.day trade.now)) (length room.old)) result room.new }
    {
        let residual = self.day.residual(trade);
        self.model
            .changes(self.day.set, trade.benchmark as u32, residual, room)
    }
}
