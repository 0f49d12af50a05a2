//! Reals as a sign, a whole number and a power of ten.

/// The number `digits` × 10^`exponent`, below zero if `negative`: a sign of its own and no signed digits, as texts are
/// read and spelled, and as sizes are compared without it.
#[derive(Clone, Copy, Debug, PartialEq, Eq)]
pub struct Real {
    pub negative: bool,
    pub digits: u64,
    pub exponent: i16,
}
