//! Values.
use crate::long::Long;
use decimal::decimal::Decimal;
use decimal::single::Single;
use protocol::text::Text;

/// A value of one of the nine types.
#[derive(Clone, Copy, PartialEq, Eq)]
pub enum Value {
    /// True or False.
    Bo(bool),
    /// A whole number of 32 bits.
    In(i32),
    /// A whole number of 16 bits.
    Sh(i16),
    /// A whole number of 16 bits without a sign.
    USh(u16),
    /// A long whole number.
    Lo(Long),
    /// An exact decimal in the range of single precision.
    Si(Single),
    /// An exact decimal in the range of double precision.
    Do(Decimal),
    /// A whole number of 8 bits without a sign.
    By(u8),
    /// A text.
    St(Text),
}
