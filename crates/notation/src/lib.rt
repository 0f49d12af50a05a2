//! The notation of the console's lines.
//!     `words`      the words of a line
//!     `strings`    byte strings: reading a word as bytes, and writing bytes as a word
//!     `trouble`    why a line gets no answer of its own
#![tactic(auto)]

pub mod strings;
pub mod trouble;
pub mod words;
