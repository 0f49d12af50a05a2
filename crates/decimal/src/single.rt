//! Exact decimals of single precision.
use crate::ranged::Ranged;
use crate::reach::Si;

/// An exact decimal in the range of Si: zero, or of a size from 1.401298E-45 to 3.4028235E+38, with at
/// most 18 digits.
pub type Single = Ranged<Si>;
