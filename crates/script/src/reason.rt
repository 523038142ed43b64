// Why a line is not answered.
ghost use Rattle.std.specs.Prelude.{◌≡◌, Some};
ghost use Rattle.script.specs.Reasons.{reason_text};
ghost use Rattle.script.specs.declared.reason.Reason.TheVariants.{NoMemory, UnknownWord};

use super::word::UnknownWord;
use std::alloc::AllocError;
use std::fmt;

#[derive(Clone, Copy, Debug, PartialEq, Eq)]
pub enum Reason {
    // The first word is none of those that begin a line.
    UnknownWord,
    // A field's word is not there.
    MissingNumber,
    // It is not a number.
    NotNumber,
    // It is below 0.
    Negative,
    // It does not fit the field's width.
    TooLarge,
    // A word follows the last field.
    TooManyWords,
    // The name of the file is not there.
    MissingName,
    // The file cannot be read.
    NoFile,
    // Its text is not that of a model.
    NotModel,
    // There is not the memory for it.
    NoMemory,
}

impl Reason {
    // How it is written.
    pub fn text(self) -> &'static str
        ensures { result.now ≡ reason_text self }
    {
        match self {
            Reason::UnknownWord => "unknown word",
            Reason::MissingNumber => "missing number",
            Reason::NotNumber => "not a number",
            Reason::Negative => "negative number",
            Reason::TooLarge => "number too large",
            Reason::TooManyWords => "too many words",
            Reason::MissingName => "missing file name",
            Reason::NoFile => "cannot read file",
            Reason::NotModel => "not a model file",
            Reason::NoMemory => "out of memory",
        }
    }
}

impl fmt::Display for Reason {
    ghost output = { λ reason. Some (reason_text reason) };

    fn fmt<W: fmt::Write>(&self, f: &mut fmt::Formatter<W>) -> fmt::Result {
        f.write_str(self.text())
    }
}

impl From<UnknownWord> for Reason {
    ghost from_gives = { λ _ reason. reason ≡ UnknownWord };

    fn from(_error: UnknownWord) -> Reason {
        Reason::UnknownWord
    }
}

impl From<AllocError> for Reason {
    ghost from_gives = { λ _ reason. reason ≡ NoMemory };

    fn from(_error: AllocError) -> Reason {
        Reason::NoMemory
    }
}
