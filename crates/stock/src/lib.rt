//! The stores that boxes are made over, as one type.
//!     `AnyStore`   one of the four, and what it answers
//!     `AnyStore::mount`, `library`, `dome`, `bare`   its makers, each with all grounds for refusal 13
#![tactic(auto)]

pub mod any;
pub mod making;
pub mod stored;
