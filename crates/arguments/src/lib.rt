//! What the words of a console line stand for, apart from byte strings.
//!     `numbers`    numbers and types
//!     `parts`      words of several parts: elements, stars and changes
#![tactic(auto)]

pub mod numbers;
pub mod parts;
