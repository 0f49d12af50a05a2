//! Exact decimals of double precision.
use crate::ranged::Ranged;
use crate::reach::Do;

/// An exact decimal in the range of Do: zero, or of a size from 4.94065645841246544E-324 to
/// 1.79769313486231570E+308, with at most 18 digits.
pub type Decimal = Ranged<Do>;
