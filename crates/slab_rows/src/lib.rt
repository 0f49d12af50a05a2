//! The memory that a station keeps its packets in. A slab is memory of at least 8,192 bytes, cut into sixteen rows of 512
//! bytes: row k starts at byte 512 × k. A reply buffer is memory of at least 512 bytes.
//!     `Place`      where a packet lies
//!     `hand_out`   the part of the memory at a place
#![tactic(auto)]

pub mod part;
pub mod place;
