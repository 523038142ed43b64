// The house of a session, its two tables, and the model in use.
use owned::any::AnyModel;
use rules::house::House;
use tables::row::{AccountRow, TradeRow};

pub mod calls;

#[derive(Drop)]
pub struct Session {
    house: House,
    records: Vec<AccountRow>,
    trades: Vec<TradeRow>,
    model: AnyModel,
}
