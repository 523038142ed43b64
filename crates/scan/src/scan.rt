// The words of a text, one after the other.
ghost use Rattle.std.specs.Fn.{FnReturnsAt};
ghost use Rattle.std.specs.List.{All, HoldsAt};
ghost use Rattle.std.specs.Prelude.{◌≡◌, ◌<◌, ◌++◌, length, true, false};
ghost use Rattle.scan.specs.Words.{blank, word_of, rest_of};

// What is left of a text.
#[derive(Clone, Copy)]
pub struct Scan<'a> {
    pub rest: &'a [u8],
}

fn is_blank(b: u8) -> bool
    ensures { result ≡ blank b }
{
    b <= b' '
}

// A text, parted before its first byte that stops.
pub fn split_before<F: Fn(&u8) -> bool>(text: &[u8], stops: F) -> (&[u8], &[u8])
    requires { F.IsAlwaysCallable stops }
    ensures same { result.0.now ++ result.1.now ≡ text.now }
    ensures before { All (λ b. FnReturnsAt F.Fn stops b false) result.0.now }
    ensures stop { 0 < length result.1.now → HoldsAt (λ b. FnReturnsAt F.Fn stops b true) result.1.now 0 }
{
    text.split_at(text.iter().position(stops).unwrap_or(text.len()))
}

impl<'a> Scan<'a> {
    pub fn new(text: &'a [u8]) -> Scan<'a>
        ensures { result.rest.now ≡ text.now }
    {
        Scan { rest: text }
    }

    // The next word; it is empty at the end of the text, and no `Option`: most readers ask what it is, and no word is empty.
    pub fn word(&mut self) -> &'a [u8]
        ensures value { result.now ≡ word_of self.old.rest.now }
        ensures after { self.new.rest.now ≡ rest_of self.old.rest.now }
    {
        let (_, text) = split_before(self.rest, |b| !is_blank(*b));
        let (word, after) = split_before(text, |b| is_blank(*b));
        self.rest = after;
        word
    }
}
