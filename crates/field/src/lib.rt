//! The fields of a packet: its frame, a cursor that hands out one field after the other with its
//! place, and the whole numbers and the words of the head that fields hold.
#![tactic(auto)]

pub mod fields;
pub mod frame;
pub mod number;
pub mod part;
pub mod words;
