// The first four bytes of a record, and whether the record may stand where it does.
ghost use Rattle.std.specs.Prelude.{◌≡◌};
ghost use Rattle.events.specs.Steps.{head_at, in_turn};

use super::event::Kind;
use super::fault::FaultReason;

// Whether a record of that kind may stand first, or later.
fn may_stand(first: bool, kind: Kind) -> bool
    ensures { result ≡ in_turn first kind }
{
    first == (kind == Kind::Open)
}

// The kind of the record that the bytes begin with, or why it has a fault.
pub(crate) fn head(bytes: &[u8], first: bool) -> Result<Kind, FaultReason>
    ensures { result ≡ head_at bytes.now 0 first }
{
    let [low, high, code_low, code_high, ..] = bytes else {
        return Err(FaultReason::Cut);
    };
    let kind = Kind::try_from(u16::from_le_bytes([*code_low, *code_high]))?;
    if u16::from_le_bytes([*low, *high]) != kind.length() {
        return Err(FaultReason::WrongLength);
    }
    if bytes.len() < kind.length() as usize {
        return Err(FaultReason::Cut);
    }
    if may_stand(first, kind) {
        Ok(kind)
    } else {
        Err(FaultReason::OutOfPlace)
    }
}
