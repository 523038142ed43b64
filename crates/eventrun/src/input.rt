// The bytes of an event file, from where they are read.
ghost use Rattle.std.specs.Prelude.{◌≡◌, take, IfOk, IfSome};

use events::reader::next::MOST_BYTES;
use std::alloc::Global;
use std::io;
use std::io::Read;

// Reads a file, and of one that is too long no more than shows it: a byte more than a file may have.
pub fn read_input<R: Read + Drop>(heap: Global, input: R) -> io::Result<Vec<u8>>
    ensures { IfOk result (λ v. IfSome (R.remaining input) (λ bytes. v.items ≡ take 65537 bytes)) }
{
    let mut bytes = Vec::new(heap);
    let _ = input.take(MOST_BYTES as u64 + 1).read_to_end(&mut bytes)?;
    Ok(bytes)
}
