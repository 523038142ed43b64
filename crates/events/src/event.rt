// The events of a file, and the kinds of record that say them.
ghost use Rattle.std.specs.Prelude.{◌≡◌};
ghost use Rattle.events.specs.Kinds.{code_of, length_of, event_kind, Decodes};

#[derive(Clone, Copy, Debug, PartialEq, Eq)]
pub enum Event {
    // Opens the house with so many accounts, in a month counted from January 2000.
    Open {
        accounts: u8,
        month: u16,
    },
    // Notional in lakh, fixed rate in ten-thousandths of a per cent, side 0 pay and 1 receive.
    Trade {
        account: u8,
        number: u32,
        benchmark: u8,
        side: u8,
        maturity: u16,
        notional: u32,
        rate: u32,
    },
    // Amounts are in paise.
    LodgeCash {
        account: u8,
        amount: u64,
    },
    DrawCash {
        account: u8,
        amount: u64,
    },
}

impl Event {
    // The kind of the record that says it.
    pub fn kind(self) -> Kind
        ensures { result ≡ event_kind self }
    {
        match self {
            Event::Open { .. } => Kind::Open,
            Event::Trade { .. } => Kind::Trade,
            Event::LodgeCash { .. } => Kind::LodgeCash,
            Event::DrawCash { .. } => Kind::DrawCash,
        }
    }
}

#[derive(Clone, Copy, Debug, PartialEq, Eq)]
pub enum Kind {
    Open,
    Trade,
    LodgeCash,
    DrawCash,
}

// The length of a whole record of each kind, in bytes.
const LENGTHS: [u16; 4] = [7, 21, 13, 13];

impl Kind {
    // Its code in the file. It is no discriminant, since those are the kind's places in the table of lengths.
    pub fn code(self) -> u16
        ensures { result ≡ code_of self }
    {
        match self {
            Kind::Open => 1,
            Kind::Trade => 10,
            Kind::LodgeCash => 12,
            Kind::DrawCash => 13,
        }
    }

    // The length of its whole record, in bytes.
    pub fn length(self) -> u16
        ensures { result ≡ length_of self }
    {
        LENGTHS[self as usize]
    }
}

impl From<Kind> for u16 {
    ghost from_gives = { λ kind code. code ≡ code_of kind };

    fn from(kind: Kind) -> u16 {
        kind.code()
    }
}

// A code that no kind of record has.
#[derive(Clone, Copy, Debug, PartialEq, Eq)]
pub struct UnknownKind(pub u16);

impl TryFrom<u16> for Kind {
    type Error = UnknownKind;

    ghost try_from_gives = { Decodes };

    fn try_from(code: u16) -> Result<Kind, UnknownKind> {
        match code {
            1 => Ok(Kind::Open),
            10 => Ok(Kind::Trade),
            12 => Ok(Kind::LodgeCash),
            13 => Ok(Kind::DrawCash),
            _ => Err(UnknownKind(code)),
        }
    }
}
