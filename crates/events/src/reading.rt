// A whole event file, read into a list of events.
ghost use Rattle.events.specs.Readings.{ReadInto};

use super::event::Event;
use super::fault::Fault;
use super::reader::Reader;

// How a reading ended: at the end of the file, at a fault, or at an event for which there was no room.
#[derive(Clone, Copy, Debug, PartialEq, Eq)]
pub enum Ending {
    End,
    Fault(Fault),
    NoRoom,
}

// So many events were read before it ended.
#[derive(Clone, Copy, Debug, PartialEq, Eq)]
pub struct Reading {
    pub count: usize,
    pub ending: Ending,
}

// The most events of a file: an opening of 7 bytes and 5,040 records of 13.
pub const MOST_EVENTS: usize = 5041;

// Reads the records up to the first fault or the end into the front of the room. The caller lends the room, since the
// reader takes no memory of its own. It counts as it goes: a `for` over the room would say twice, in it and after it,
// what the end and a fault are.
pub fn read_all(bytes: &[u8], room: &mut [Event]) -> Reading
    ensures { ReadInto bytes.now room.old room.new result }
{
    let mut reader = Reader::new(bytes);
    let mut count = 0;
    loop {
        match reader.next() {
            Ok(Some(event)) => {
                if count == room.len() {
                    return Reading {
                        count,
                        ending: Ending::NoRoom,
                    };
                }
                room[count] = event;
                count += 1;
            }
            Ok(None) => {
                return Reading {
                    count,
                    ending: Ending::End,
                };
            }
            Err(fault) => {
                return Reading {
                    count,
                    ending: Ending::Fault(fault),
                };
            }
        }
    }
}
