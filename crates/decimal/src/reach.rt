//! The reaches of Si and Do.
ghost use Rattle.decimal.specs.declared.real.Real.{Real};
ghost use Rattle.std.specs.Prelude.{◌≡◌, true, refl};
ghost use Rattle.decimal.specs.Range.{is_end, si_least, si_most, do_least, do_most};

use crate::real::Real;

/// How far a type of decimals reaches: from the least size that is not zero to the greatest.
pub trait Reach {
    /// The least size.
    const LEAST: Real;

    ghost LEAST: { Real };

    /// The greatest size.
    const MOST: Real;

    ghost MOST: { Real };

    ghost least_fits: { is_end LEAST ≡ true };

    ghost most_fits: { is_end MOST ≡ true };
}

const SI_LEAST: Real = Real {
    negative: false,
    digits: 1401298,
    exponent: -51,
};

const SI_MOST: Real = Real {
    negative: false,
    digits: 34028235,
    exponent: 31,
};

const DO_LEAST: Real = Real {
    negative: false,
    digits: 494065645841246544,
    exponent: -341,
};

const DO_MOST: Real = Real {
    negative: false,
    digits: 17976931348623157,
    exponent: 292,
};

/// The reach of Si: from 1.401298E-45 to 3.4028235E+38.
#[derive(Clone, Copy, Debug, PartialEq, Eq)]
pub struct Si;

impl Reach for Si {
    const LEAST: Real = SI_LEAST;

    ghost LEAST = { si_least };

    const MOST: Real = SI_MOST;

    ghost MOST = { si_most };

    ghost least_fits = { refl };

    ghost most_fits = { refl };
}

/// The reach of Do: from 4.94065645841246544E-324 to 1.79769313486231570E+308.
#[derive(Clone, Copy, Debug, PartialEq, Eq)]
pub struct Do;

impl Reach for Do {
    const LEAST: Real = DO_LEAST;

    ghost LEAST = { do_least };

    const MOST: Real = DO_MOST;

    ghost MOST = { do_most };

    ghost least_fits = { refl };

    ghost most_fits = { refl };
}
