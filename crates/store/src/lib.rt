//! Stores of variables by index: what every store answers, and two of them.
//!
//! A store means two limits and, for each index between them, nothing or an element: a type, a value of it, and a
//! mark fixed or not (specs/Contents.antt). Its calls are proved to be those of its meaning, so all that is written
//! over the trait holds of every store.
//!     `Store`         the trait
//!     `HouseRecord`   the four fixed elements of every box
//!     `Joined`        two stores as one
//!     `owner_write`, `write_text`   writing a text
//!     `run`           a list of reads and writes
#![tactic(auto)]

pub mod house;
pub mod joined;
pub mod owner;
pub mod rejected;
pub mod runs;
pub mod step;
pub mod store;
