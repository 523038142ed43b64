// Goes through an event file, record by record.
ghost use Rattle.std.specs.Prelude.{◌≡◌, ◌+◌, length};
ghost use Rattle.events.specs.Files.{events_of, fault_of};
ghost use Rattle.events.specs.Left.{events_left, fault_left, Handed};
ghost use Rattle.events.specs.Steps.{step_at, size_of, records_in};

use super::super::event::Event;
use super::super::fault::{Fault, FaultReason};
use super::super::head::head;
use super::super::record::decode;
use super::Reader;

// The most bytes of a file.
pub const MOST_BYTES: usize = 65536;

impl<'a> Reader<'a> {
    // At the start of a file, of whatever length.
    pub fn new(bytes: &'a [u8]) -> Reader<'a>
        ensures bytes { result.bytes.now ≡ bytes.now }
        ensures place { result.place ≡ 0 }
        ensures count { result.count ≡ 0 }
        ensures events { events_left result ≡ events_of bytes.now }
        ensures fault { fault_left result ≡ fault_of bytes.now }
    {
        Reader {
            bytes,
            place: 0,
            count: 0,
        }
    }

    // The next record, none at the end, or a fault. A record is passed; the end and a fault leave the reader where it is,
    // so that it is no `Iterator`: after a fault one would not end.
    pub fn next(&mut self) -> Result<Option<Event>, Fault>
        ensures value { result ≡ step_at self.old.bytes.now self.old.place self.old.count }
        ensures bytes { self.new.bytes.now ≡ self.old.bytes.now }
        ensures place { self.new.place ≡ self.old.place + size_of result }
        ensures count { self.new.count ≡ self.old.count + records_in result }
        ensures left { Handed result self.old self.new }
    {
        if self.bytes.len() > MOST_BYTES {
            return Err(Fault {
                ordinal: 0,
                reason: FaultReason::TooLong,
                offset: 0,
            });
        }
        let rest = &self.bytes[self.place..];
        if rest.is_empty() {
            return Ok(None);
        }
        let kind = head(rest, self.count == 0).map_err(|reason| Fault {
            ordinal: self.count + 1,
            reason,
            offset: self.place as u32,
        })?;
        let event = decode(rest, kind);
        self.place += kind.length() as usize;
        self.count += 1;
        Ok(Some(event))
    }
}
