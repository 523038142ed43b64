// What lodged securities count for.
ghost use Rattle.std.specs.Prelude.{◌≡◌, ◌*◌, ◌≤◌, true, All};
ghost use Rattle.tables.specs.Collateral.{lots_value};
ghost use Rattle.tables.specs.Limits.{security_keeps};
ghost use Rattle.margins.specs.Figures.{securities_of};

use tables::row::SecurityRow;
use tables::security::Security;

// What lots of one security count for.
fn row_value(lots: u32, row: SecurityRow) -> u64
    requires { security_keeps row ≡ true }
    ensures value { result ≡ lots_value lots row }
    ensures bound { result ≤ 3000000 * lots }
{
    Security::from_row(row).map_or(0, |security| security.lots_value(lots))
}

// What the lots of the 32 securities count for. A `for`: tried as one chain, whose sum wants that each pair keeps its limits and fits, its
// value and its bound, and the check found none of these.
#[tactic(auto, unfolding(tables::specs::Numbers::sum_below))]
pub(crate) fn securities_value(lots: &[u32; 32], securities: &[SecurityRow; 32]) -> u64
    requires lots { All (λ n. n ≤ 1000000) lots.now }
    requires securities { All (λ s. security_keeps s ≡ true) securities.now }
    ensures value { result ≡ securities_of lots.now securities.now }
    ensures bound { result ≤ 96000000000000 }
{
    let mut sum = 0;
    for (count, row) in lots.iter().zip(securities) {
        sum += row_value(*count, *row);
    }
    sum
}
