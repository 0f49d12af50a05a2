//! Whether a real lies in a reach.
ghost use Rattle.std.specs.Prelude.{◌≡◌, ◌*◌, ◌^◌, ◌<◌, ◌≤◌, pos, negsuc, ◌+ℤ◌, ◌≤ℤ◌, unsigned_abs};
ghost use Rattle.decimal.specs.Range.{inside, size_of};

use crate::normal::NormalReal;
use crate::reach::Reach;
use crate::real::Real;

/// The size of a real that is not zero, as 18 digits times a power of ten. The power stands in front, so that sizes
/// compare as these pairs do.
fn aligned(d: Real) -> (i64, u64)
    requires digits { (0 < d.digits) × (d.digits < 10 ^ 18) }
    requires bounds { (negsuc 1099 ≤ℤ d.exponent) × (d.exponent ≤ℤ pos 1100) }
    ensures same { size_of d ≡ result.1 * 10 ^ unsigned_abs (result.0 +ℤ pos 1200) }
    ensures low { negsuc 1199 ≤ℤ result.0 }
    ensures full { (10 ^ 17 ≤ result.1) × (result.1 < 10 ^ 18) }
{
    let missing = 17 - d.digits.ilog10();
    (
        i64::from(d.exponent) - i64::from(missing),
        d.digits * 10u64.pow(missing),
    )
}

/// Whether a real is zero, or has a size in the reach.
pub(crate) fn is_within<R: Reach>(d: NormalReal) -> bool
    ensures { result ≡ inside R.LEAST R.MOST d.real }
{
    d.real.digits == 0 || (aligned(R::LEAST)..=aligned(R::MOST)).contains(&aligned(d.real))
}
