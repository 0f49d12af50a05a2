//! Long whole numbers.
ghost use Rattle.std.specs.Prelude.{◌≤ℤ◌};
ghost use Rattle.value.specs.Whole.{long_least, long_most};

/// A whole number from -922337236854775808 to 922337236854775807.
#[derive(Clone, Copy, Debug, PartialEq, Eq)]
pub struct Long {
    pub(crate) number: i64,
    ghost within: { (long_least ≤ℤ number) × (number ≤ℤ long_most) },
}
