// What is said to a line.
use models::refusal::MakingRefusal;
use rules::call::{Call, Reply};

// Nothing: the line asks for nothing. Opened: the number of the opening, plain as the opening answers it. Loaded: a model was taken, or its numbers were refused.
// Replied: a call, and its answer. Report: the records are to be reported.
#[derive(Clone, Copy)]
pub enum Said {
    Nothing,
    Opened(u8),
    Loaded,
    Refused(MakingRefusal),
    Replied(Call, Reply),
    Report,
}
