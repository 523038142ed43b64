// The reader of an event file: its records, the events that they say, and the faults that end it.
#![tactic(auto)]

pub mod event;
pub mod fault;
mod head;
pub mod laws;
mod numbers;
pub mod reader;
pub mod reading;
mod record;
