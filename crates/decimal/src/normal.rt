//! Reals in their normal form.
ghost use Rattle.std.specs.Prelude.{◌≡◌, true, pos, negsuc, ◌≤ℤ◌};
ghost use Rattle.decimal.specs.Normal.{in_form};

use crate::real::Real;

/// A real in its normal form, with a power of ten that a text of 40 bytes can write.
#[derive(Clone, Copy, Debug, PartialEq, Eq)]
pub(crate) struct NormalReal {
    pub(crate) real: Real,
    ghost normal: { in_form real ≡ true },
    ghost low: { negsuc 1099 ≤ℤ real.exponent },
    ghost high: { real.exponent ≤ℤ pos 1100 },
}
