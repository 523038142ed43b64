// The fields of a line.
ghost use Rattle.std.specs.Prelude.{◌≡◌, ◌<◌, ℕ, List, [], ◌∷◌, ◌++◌, length, Err};
ghost use Rattle.scan.specs.Number.{number_of};
ghost use Rattle.script.specs.Fields.{Field, name, bits8, bits16, bits32, bits64, Converts, Reads};
ghost use Rattle.script.specs.declared.reason.Reason.TheVariants.{MissingNumber};

use super::reason::Reason;
use scan::number::number;
use scan::scan::Scan;
use std::num::TryFromIntError;

// What is read from the fields that stand first in a text.
pub trait FromFields: Sized {
    // The fields that it wants, and the numbers that they gave.
    ghost wants: { List Field };

    ghost numbers: { Self → List ℕ };

    fn read(scan: &mut Scan) -> Result<Self, Reason>
        ensures { Reads wants numbers scan.old.rest.now result scan.new.rest.now };
}

// The number that a word gives, if it fits.
fn number_field<T: TryFrom<i128, Error = TryFromIntError> + Drop>(word: &[u8]) -> Result<T, Reason>
    ensures missing { length word.now ≡ 0 → result ≡ Err MissingNumber }
    ensures number { 0 < length word.now → Converts T.try_from_gives (number_of word.now) result }
{
    if word.is_empty() {
        return Err(Reason::MissingNumber);
    }
    let n = number(word).ok_or(Reason::NotNumber)?;
    if n < 0 {
        return Err(Reason::Negative);
    }
    T::try_from(n).map_err(|_| Reason::TooLarge)
}

// An impl for each width, since `TryFrom` does not say which field a type wants.
impl FromFields for u8 {
    ghost wants = { bits8 ∷ [] };

    ghost numbers = { λ x. x ∷ [] };

    fn read(scan: &mut Scan) -> Result<u8, Reason> {
        number_field(scan.word())
    }
}

impl FromFields for u16 {
    ghost wants = { bits16 ∷ [] };

    ghost numbers = { λ x. x ∷ [] };

    fn read(scan: &mut Scan) -> Result<u16, Reason> {
        number_field(scan.word())
    }
}

impl FromFields for u32 {
    ghost wants = { bits32 ∷ [] };

    ghost numbers = { λ x. x ∷ [] };

    fn read(scan: &mut Scan) -> Result<u32, Reason> {
        number_field(scan.word())
    }
}

impl FromFields for u64 {
    ghost wants = { bits64 ∷ [] };

    ghost numbers = { λ x. x ∷ [] };

    fn read(scan: &mut Scan) -> Result<u64, Reason> {
        number_field(scan.word())
    }
}

// The name of a file: any word.
#[derive(Clone, Copy)]
pub struct Name;

impl FromFields for Name {
    ghost wants = { name ∷ [] };

    ghost numbers = { λ x. 0 ∷ [] };

    fn read(scan: &mut Scan) -> Result<Name, Reason> {
        if scan.word().is_empty() {
            Err(Reason::MissingName)
        } else {
            Ok(Name)
        }
    }
}

impl<A: FromFields + Drop, B: FromFields> FromFields for (A, B) {
    ghost wants = { A.wants ++ B.wants };

    ghost numbers = { λ p. A.numbers p.0 ++ B.numbers p.1 };

    fn read(scan: &mut Scan) -> Result<(A, B), Reason> {
        let first = A::read(scan)?;
        let second = B::read(scan)?;
        Ok((first, second))
    }
}

impl<A: FromFields + Drop, B: FromFields + Drop, C: FromFields> FromFields for (A, B, C) {
    ghost wants = { A.wants ++ (B.wants ++ C.wants) };

    ghost numbers = { λ p. A.numbers p.0 ++ (B.numbers p.1 ++ C.numbers p.2) };

    fn read(scan: &mut Scan) -> Result<(A, B, C), Reason> {
        let first = A::read(scan)?;
        let (second, third) = <(B, C)>::read(scan)?;
        Ok((first, second, third))
    }
}
