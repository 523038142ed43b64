// A place in an event file.
ghost use Rattle.std.specs.Prelude.{◌≤◌, length};

pub mod next;
pub mod progress;

// The place counts bytes, the count records: those that were read.
#[derive(Clone, Copy)]
pub struct Reader<'a> {
    bytes: &'a [u8],
    place: usize,
    count: u32,
    ghost within: { (place ≤ length bytes.now) × (place ≤ 65536) × (count ≤ place) },
}
