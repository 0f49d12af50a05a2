//! Values of the nine types: reading one from a text, and its one spelling.
//!
//! A value text is a text (1 to 40 bytes of UTF-8, none of them reserved). All whole numbers go
//! through one reader, each type between its own ends, and one speller (`whole`); the reals are those of
//! the crate `decimal`. Reading and spelling are proved to go back and forth: a text that reads has a
//! spelling that reads as the same value, and each value is read from its spelling.
#![tactic(auto)]

pub mod long;
pub mod longs;
pub mod read;
mod text;
pub mod value;
pub mod values;
mod whole;
