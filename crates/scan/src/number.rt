// Decimal numbers.
ghost use Rattle.std.specs.Prelude.{◌≡◌, ◌≤◌, true, drop, pos, neg_ℤ, IfSome, if◌then◌else◌, unsigned_abs};
ghost use Rattle.scan.specs.Number.{step, minus, magnitude_of, number_of};
ghost use Rattle.scan.specs.Words.{word_of, after_number};

use super::scan::Scan;

// Every larger number reads as this one, which is larger than any field holds.
pub const CAP: u128 = 18_446_744_073_709_551_616;

// One digit more.
fn further(n: u128, b: u8) -> u128
    requires { n ≤ 18446744073709551616 }
    ensures { result ≡ step n b }
{
    (n * 10 + b.saturating_sub(b'0') as u128).min(CAP)
}

// The number that one or more digits write. A `for`: by `all` and then `fold`, which read each digit twice, a model's text takes a quarter
// longer.
fn magnitude(word: &[u8]) -> Option<u128>
    ensures value { result ≡ magnitude_of word.now }
    ensures bound { IfSome result (λ n. n ≤ 18446744073709551616) }
{
    let mut n = 0;
    for b in word {
        if !b.is_ascii_digit() {
            return None;
        }
        n = further(n, *b);
    }
    if word.is_empty() { None } else { Some(n) }
}

// The number that a word writes: digits, with a minus before them or not.
pub fn number(word: &[u8]) -> Option<i128>
    ensures value { result ≡ number_of word.now }
    ensures bound { IfSome result (λ z. unsigned_abs z ≤ 18446744073709551616) }
{
    match word {
        [b'-', digits @ ..] => magnitude(digits).map(|n| -(n as i128)),
        _ => magnitude(word).map(|n| n as i128),
    }
}

// The next word, if it is a number. A word that is none is not passed over.
pub fn next_number(scan: &mut Scan) -> Option<i128>
    ensures value { result ≡ number_of (word_of scan.old.rest.now) }
    ensures bound { IfSome result (λ z. unsigned_abs z ≤ 18446744073709551616) }
    ensures after { scan.new.rest.now ≡ after_number scan.old.rest.now }
{
    let mut ahead = *scan;
    let found = number(ahead.word())?;
    *scan = ahead;
    Some(found)
}
