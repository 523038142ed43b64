// A row of changes, added to losses.
ghost use Rattle.std.specs.Prelude.{◌≡◌, ℕ, ◌<◌, ◌≤◌, length, pos, ◌+ℤ◌, ◌*ℤ◌, slice_index_or, unsigned_abs};

use std::simd::prelude::*;

// Four losses, each with a change times its weight added. Both factors are cast here, from 32 bits, so that the machine makes two products
// in one step: of weights that are spread in 64 bits it takes three, and more around them.
fn plus_products(losses: i64x4, weights: i32x4, changes: i32x4) -> i64x4
    requires losses { (j : ℕ) → j < 4 → unsigned_abs (slice_index_or losses j (pos 0)) ≤ 126000000000000 }
    requires weights { (j : ℕ) → j < 4 → unsigned_abs (slice_index_or weights j (pos 0)) ≤ 1000000 }
    requires changes { (j : ℕ) → j < 4 → unsigned_abs (slice_index_or changes j (pos 0)) ≤ 2000000 }
    ensures len { length result ≡ 4 }
    ensures value { (j : ℕ) → j < 4 → slice_index_or result j (pos 0) ≡ slice_index_or losses j (pos 0) +ℤ slice_index_or weights j (pos 0) *ℤ slice_index_or changes j (pos 0) }
{
    losses + weights.cast::<i64>() * changes.cast::<i64>()
}

// Adds each change, times `weight`. By the index of `enumerate`, since of a `zip` with an `iter_mut` a proof does not learn what was
// written.
fn add_each(losses: &mut [i64], weight: i32, row: &[i32])
    requires lengths { length row.now ≡ length losses.old }
    requires losses { (j : ℕ) → unsigned_abs (slice_index_or losses.old j (pos 0)) ≤ 126000000000000 }
    requires weight { unsigned_abs weight ≤ 1000000 }
    requires changes { (j : ℕ) → unsigned_abs (slice_index_or row.now j (pos 0)) ≤ 2000000 }
    ensures { (j : ℕ) → j < length losses.old → slice_index_or losses.new j (pos 0) ≡ slice_index_or losses.old j (pos 0) +ℤ weight *ℤ slice_index_or row.now j (pos 0) }
{
    for (scenario, loss) in losses.iter_mut().enumerate() {
        *loss += weight as i64 * row[scenario] as i64;
    }
}

// The same, four at a time: one by one, a row takes twice as long.
pub(crate) fn add_row(losses: &mut [i64], weight: i32, row: &[i32])
    requires lengths { length row.now ≡ length losses.old }
    requires losses { (j : ℕ) → unsigned_abs (slice_index_or losses.old j (pos 0)) ≤ 126000000000000 }
    requires weight { unsigned_abs weight ≤ 1000000 }
    requires changes { (j : ℕ) → unsigned_abs (slice_index_or row.now j (pos 0)) ≤ 2000000 }
    ensures { (j : ℕ) → j < length losses.old → slice_index_or losses.new j (pos 0) ≡ slice_index_or losses.old j (pos 0) +ℤ weight *ℤ slice_index_or row.now j (pos 0) }
{
    let weights = i32x4::splat(weight);
    let fours = row.len() / 4;
    for four in 0..fours {
        let at = 4 * four;
        let old = i64x4::from_slice(&losses[at..]);
        let changes = i32x4::from_slice(&row[at..]);
        plus_products(old, weights, changes).copy_to_slice(&mut losses[at..]);
    }
    add_each(&mut losses[4 * fours..], weight, &row[4 * fours..]);
}
