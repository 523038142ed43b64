// The keeper of the k highest: as many places as entries are to be kept, filled from the highest down.
// A threshold is found first, which at least k entries reach: what does not reach it never comes to the places.
ghost use Rattle.std.specs.Prelude.{◌≡◌, ◌+◌, ◌-◌, ◌≤◌, ◌<◌, ◌⊎◌, min, false, cond, List, [], ◌∷◌, ◌++◌, length, take, IfSome, IsSomeAnd, MatchOption, slice_index_or};
ghost use Rattle.std.specs.Fn.{FnReturnsAt};
ghost use Rattle.std.specs.List.{AllByRecursion, ContainsAt};
ghost use Rattle.tail.specs.Tail.{Holds, placed, ranked, count_at_least, Kth, Short};

use super::order::Ranked;

// The highest of a chunk: none of an empty one. That it is one of them is all that a threshold needs.
fn highest<T: Ranked + Copy>(chunk: &[T]) -> Option<T>
    ensures { MatchOption result (length chunk.now ≡ 0) (ContainsAt chunk.now) }
{
    chunk
        .iter()
        .copied()
        .reduce(|x, y| if x.at_least(&y) { x } else { y })
}

// The lower of two.
fn lower<T: Ranked + Copy>(x: T, y: T) -> T
    ensures { result ≡ cond (T.reaches x y) y x }
{
    if x.at_least(&y) { y } else { x }
}

// The lowest of the highest of at least k chunks: at least k entries reach it. None where there are fewer entries, or k is 0. Tried by
// `filter_map` and `reduce`: the proof did not close, since it does not learn that each chunk gives an entry of its own.
fn threshold<T: Ranked + Copy>(entries: &[T], k: usize) -> Option<T>
    ensures { IfSome result (λ t. k ≤ count_at_least T.reaches t entries.now) }
{
    let size = entries.len().checked_div(k)?;
    if size == 0 {
        return None;
    }
    let (first, others) = entries.split_at(size);
    let mut least = highest(first)?;
    for chunk in others.chunks_exact(size) {
        least = lower(least, highest(chunk)?);
    }
    Some(least)
}

// How many of three tests failed before the first that did not.
fn failed(x: bool, y: bool, z: bool) -> usize
    ensures { result ≡ cond x 0 (cond y 1 (cond z 2 3)) }
{
    if x {
        0
    } else if y {
        1
    } else if z {
        2
    } else {
        3
    }
}

// Passes over entries that are not `wanted`. What is left begins with the first that is, or is fewer than four that were not asked, or
// nothing. Four are asked, and then there is one branch: by `position`, which takes one at a time, a row of changes takes 40 per cent longer.
fn skip_to<T, F: Fn(&T) -> bool>(entries: &[T], wanted: F) -> &[T]
    requires { F.IsAlwaysCallable wanted }
    ensures { (gone : List T) × (entries.now ≡ gone ++ result.now) × AllByRecursion (λ y. FnReturnsAt F.Fn wanted y false) gone }
{
    let mut rest = entries;
    while let [x, y, z, last, others @ ..] = rest {
        let (x, y, z, last) = (wanted(x), wanted(y), wanted(z), wanted(last));
        if x | y | z | last {
            return &rest[failed(x, y, z)..];
        }
        rest = others;
    }
    rest
}

// Puts `item` in its place among those that are kept, which fall, and gives back what then comes behind all of them. No branch hangs on
// where that place is, which a processor cannot foretell: by a search for it and a shift of the rest, a row of changes takes 25 per cent longer.
fn carry<T: Ranked + Copy>(kept: &mut [T], item: T) -> T
    ensures { kept.new ++ result ∷ [] ≡ placed T.reaches item kept.old }
{
    let mut carried = item;
    let mut is_below = false;
    for place in kept {
        let here = *place;
        is_below |= !here.at_least(&item);
        *place = if is_below { carried } else { here };
        carried = if is_below { here } else { carried };
    }
    carried
}

// Places that a caller lends, since no heap is used here; the first `filled` of them are in use. That the places stay the same, of the
// same length, `put` and `of` have to say. Functions over the places alone would not, but each would ask that `filled` is within them.
#[derive(Drop)]
struct Keeper<'a, T> {
    places: &'a mut [T],
    filled: usize,
    ghost within: { filled ≤ length places.now },
}

impl<'a, T: Ranked + Copy> Keeper<'a, T> {
    // The lowest entry that is kept, where every place is in use.
    fn lowest(&self) -> Option<T>
        ensures { MatchOption result ((self.now.filled ≡ 0) ⊎ (self.now.filled < length self.now.places.now)) (λ l. (0 < self.now.filled) × (self.now.filled ≡ length self.now.places.now) × (l ≡ slice_index_or self.now.places.now (self.now.filled - 1) l)) }
    {
        if self.filled == self.places.len() {
            self.places.last().copied()
        } else {
            None
        }
    }

    // Puts `item` in its place among the entries that are kept, which fall. The lowest goes where no place is left.
    fn put(&mut self, item: T)
        ensures same { self.new.places.ghost_name ≡ self.old.places.ghost_name }
        ensures len { length self.new.places.now ≡ length self.old.places.now }
        ensures filled { self.new.filled ≡ min (self.old.filled + 1) (length self.old.places.now) }
        ensures places { take self.new.filled self.new.places.now ≡ take (length self.old.places.now) (placed T.reaches item (take self.old.filled self.old.places.now)) }
    {
        let filled = self.filled;
        let places = &mut *self.places;
        let lowest = carry(&mut places[..filled], item);
        if filled < places.len() {
            places[filled] = lowest;
            self.filled = filled + 1;
        }
    }

    // Passes over entries that change nothing of what is kept at the end: while a place is free, those that do not reach the threshold
    // `bar`, and then those that are not above the lowest that is kept.
    fn skip<'b>(&self, entries: &'b [T], bar: Option<T>) -> &'b [T]
        ensures { (gone : List T) × (entries.now ≡ gone ++ result.now) × (IsSomeAnd bar (λ t. AllByRecursion (λ y. T.reaches y t ≡ false) gone) ⊎ ((xs : List T) → Holds T.reaches xs self.now.filled self.now.places.now → Holds T.reaches (xs ++ gone) self.now.filled self.now.places.now)) }
    {
        match (self.lowest(), bar) {
            (Some(lowest), _) => skip_to(entries, |y| !lowest.at_least(y)),
            (None, Some(bar)) => skip_to(entries, |y| y.at_least(&bar)),
            (None, None) => entries,
        }
    }

    // Keeps the highest of `entries`. By a `for` over those that reach the threshold, each of which is asked once more, a row of changes
    // takes 90 per cent longer.
    fn of(entries: &[T], places: &'a mut [T]) -> Keeper<'a, T>
        ensures same { result.places.ghost_name ≡ places.entry.ghost_name }
        ensures len { length result.places.now ≡ length places.entry.now }
        ensures holds { Holds T.reaches entries.now result.filled result.places.now }
    {
        let bar = threshold(entries, places.len());
        let mut keeper = Keeper { places, filled: 0 };
        let mut left = entries;
        while let [x, others @ ..] = keeper.skip(left, bar) {
            keeper.put(*x);
            left = others;
        }
        keeper
    }
}

// Keeps the highest of `entries`, as many as there are places. The answer is how many places are filled.
pub fn keep_all<T: Ranked + Copy>(entries: &[T], places: &mut [T]) -> usize
    ensures { Holds T.reaches entries.now result places.new }
{
    Keeper::of(entries, places).filled
}

// The k-th highest of `entries`, where k is how many places there are; none where there are fewer entries, or no place.
pub fn kth_highest<T: Ranked + Copy>(entries: &[T], places: &mut [T]) -> Option<T>
    ensures words { MatchOption result (Short (length places.old) entries.now) (λ l. Kth T.reaches (length places.old) entries.now l) }
    ensures value { MatchOption result (Short (length places.old) entries.now) (λ l. (d : T) → l ≡ slice_index_or (ranked T.reaches entries.now) (length places.old - 1) d) }
{
    Keeper::of(entries, places).lowest()
}
