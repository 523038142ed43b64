// What a line asks for.
use rules::call::Call;

// Open: a house of so many accounts, in a month. Model: the margin model of a file, whose name the line has.
// Report: all accounts as they stand.
#[derive(Clone, Copy)]
pub enum Command {
    Open(u32, u16),
    Model,
    Call(Call),
    Report,
}
