//! Exact decimals: reading a text, the ranges of Si and Do, and the one spelling.
//!
//! A text is scanned into digits and a power of ten (`scan`), the digits are gathered into a coefficient
//! of at most 18 digits (`gather`), the size is held against the ends of a reach (`range`), and a
//! decimal is written in its one spelling (`spell`). Si and Do are one type, `Ranged`, at two reaches.
//! Binary floating point is nowhere used.
#![tactic(auto)]

mod coefficient;
pub mod decimal;
mod digits;
mod gather;
mod normal;
mod range;
pub mod ranged;
pub mod ranges;
pub mod reach;
pub mod real;
mod scan;
pub mod single;
mod spell;
