//! Writing packets into the front of a row of bytes, the rest of which stays as it is. Every value is
//! written in its one spelling, and what is written reads back as the same message.
//!     `requests`   what a catalogue asks
//!     `answers`    what a box answers
//!     `again`      what was read, each value in its one spelling
//!     `limits`     which orders can be written
#![tactic(auto)]

pub mod again;
pub mod answers;
pub mod change;
mod draft;
pub mod limits;
mod put;
pub mod requests;
mod write;
