//! Reading packets. Any bytes give a request, an answer or a refusal: `packet::read_packet` tries
//! the frame, the head and the payload in this order. What it hands out are parts of the packet.
//!
//! The payload, what stands behind the fourth field, is groups of one kind: `indices`, `writes`, `codes` or
//! `readings` says what a group of its kind is. `groups` goes through them once, and gives a cursor over them or the
//! number of the first field at fault. A Discovery request has none: `discovery` reads it.
#![tactic(auto)]

pub mod codes;
mod discovery;
pub mod groups;
pub mod head;
pub mod indices;
pub mod packet;
pub mod readings;
mod rules;
pub mod writes;
