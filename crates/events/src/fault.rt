// The faults of an event file.
ghost use Rattle.std.specs.Prelude.{◌≡◌, Some};
ghost use Rattle.events.specs.Faults.{number_of};

use super::event::UnknownKind;
use std::fmt;

#[derive(Clone, Copy, Debug, PartialEq, Eq)]
pub enum FaultReason {
    // The file ends before the record does.
    Cut = 1,
    // No record has this kind.
    UnknownKind = 2,
    // The length is not the one of the kind.
    WrongLength = 3,
    // The first record is no opening, or a later one is.
    OutOfPlace = 4,
    // The file has more than 65,536 bytes.
    TooLong = 5,
}

impl FaultReason {
    // The number of the fault.
    pub fn number(self) -> u32
        ensures { result ≡ number_of self }
    {
        self as u32
    }
}

impl From<UnknownKind> for FaultReason {
    ghost use Rattle.events.specs.declared.fault.FaultReason.TheVariants as reasons;

    ghost from_gives = { λ _ reason. reason ≡ reasons.UnknownKind };

    fn from(_: UnknownKind) -> FaultReason {
        FaultReason::UnknownKind
    }
}

// Where a file is at fault: the record's number, counted from 1, and its first byte, counted from 0.
// A file that is too long has the fault at record 0.
#[derive(Clone, Copy, Debug, PartialEq, Eq)]
pub struct Fault {
    pub ordinal: u32,
    pub reason: FaultReason,
    pub offset: u32,
}

impl fmt::Display for Fault {
    ghost use Rattle.events.specs.Printing.{fault_text};

    ghost output = { λ f. Some (fault_text f) };

    fn fmt<W: fmt::Write>(&self, f: &mut fmt::Formatter<W>) -> fmt::Result {
        let number = self.reason.number();
        write!(f, "{} fault {number} {}", self.ordinal, self.offset)
    }
}
