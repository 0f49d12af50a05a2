//! Whole numbers as digits.
ghost use Rattle.std.specs.Prelude.{◌≤◌};

/// A whole number written out: the first `len` of the bytes. (Bytes and a length for the reason that `Text` gives.)
#[derive(Clone, Copy)]
pub struct Numeral {
    pub(crate) bytes: [u8; 20],
    pub(crate) len: usize,
    ghost within: { len ≤ 20 },
}
