// The residuals at which a model has numbers.
ghost use Rattle.std.specs.Prelude.{◌≡◌, ◌≤◌};
ghost use Rattle.knots.specs.Knots.{Neighbours, low_place, high_place};

pub const KNOTS: [u32; 12] = [0, 1, 3, 6, 9, 12, 24, 36, 48, 60, 84, 120];

// The place of the last knot that is not past a residual.
fn last_knot(residual: u32) -> usize
    ensures value { result ≡ low_place residual }
    ensures bound { result ≤ 11 }
{
    KNOTS.partition_point(|knot| *knot <= residual) - 1
}

// The places of the knots next to a residual, one place twice where it is a knot.
pub(crate) fn neighbours(residual: u32) -> (usize, usize)
    requires { residual ≤ 120 }
    ensures next { Neighbours residual result.0 result.1 }
    ensures low { result.0 ≡ low_place residual }
    ensures high { result.1 ≡ high_place residual }
{
    let p = last_knot(residual);
    if KNOTS[p] == residual {
        (p, p)
    } else {
        (p, p + 1)
    }
}
