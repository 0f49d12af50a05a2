//! The words of the protocol: type tags, answer codes, refusals, and texts of 1 to 40 bytes.
//! Each enum's cases have their numbers and words by a definition of specs/Words.antt; `From`, `TryFrom` and `FromStr` go
//! between them.
#![tactic(auto)]

pub mod code;
pub mod kind;
pub mod numeral;
pub mod refusal;
pub mod row;
pub mod text;
pub mod texts;
pub mod unknown;
