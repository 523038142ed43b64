// How far a reader is.
ghost use Rattle.std.specs.Prelude.{◌≡◌};

use super::Reader;

impl<'a> Reader<'a> {
    // How many records were read.
    pub fn count(&self) -> u32
        ensures { result ≡ self.now.count }
    {
        self.count
    }
}
