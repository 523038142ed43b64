// The lines of a script.
ghost use Rattle.std.specs.Iterator.{at_most};
ghost use Rattle.std.specs.Prelude.{◌≡◌, ◌<◌, length, drop, MatchOption};
ghost use Rattle.script.specs.Lines.{uncommented, line_of, lines_after};

use scan::scan::split_before;

// A line without its comment.
pub fn without_comment(line: &[u8]) -> &[u8]
    ensures { result.now ≡ uncommented line.now }
{
    let (words, _) = split_before(line, |b| *b == b'#');
    words
}

// A text without its first byte.
fn past_first(text: &[u8]) -> &[u8]
    ensures { result.now ≡ drop 1 text.now }
{
    match text {
        [_, rest @ ..] => rest,
        [] => text,
    }
}

// What is left of a script.
#[derive(Clone, Copy)]
pub struct Lines<'a> {
    pub rest: &'a [u8],
}

impl<'a> Lines<'a> {
    pub fn new(text: &'a [u8]) -> Lines<'a>
        ensures { result.rest.now ≡ text.now }
    {
        Lines { rest: text }
    }

    // The next line, without its line feed; nothing at the end. It stands beside `next`, whose trait says less of what is left.
    pub fn next_line(&mut self) -> Option<&'a [u8]>
        ensures value { MatchOption result (length self.old.rest.now ≡ 0) (λ line. (line.now ≡ line_of self.old.rest.now) × ((self.new.rest.now ≡ lines_after self.old.rest.now) × (length self.new.rest.now < length self.old.rest.now))) }
        ensures same { length self.old.rest.now ≡ 0 → self.new.rest.now ≡ self.old.rest.now }
    {
        if self.rest.is_empty() {
            return None;
        }
        let (line, after) = split_before(self.rest, |b| *b == b'\n');
        self.rest = past_first(after);
        Some(line)
    }
}

impl<'a> Iterator for Lines<'a> {
    type Item = &'a [u8];

    ghost next_gives = { λ s r t. MatchOption r (length s.rest.now ≡ 0) (λ line. (line.now ≡ line_of s.rest.now) × (t.rest.now ≡ lines_after s.rest.now)) };

    ghost remaining = { λ s. at_most (length s.rest.now) };

    fn next(&mut self) -> Option<&'a [u8]> {
        self.next_line()
    }
}
