//! The shelf: a store of up to 256 elements, each given at its making.
//!     `Slot`    an element with its index
//!     `Shelf`   the store
#![tactic(auto)]

pub mod making;
pub mod shelf;
pub mod slot;
pub mod slots;
pub mod stored;
