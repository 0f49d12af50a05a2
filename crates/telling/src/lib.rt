//! What is told in a line of the console: the groups of packets, each as one more word, and packets. Each prints by
//! `Display`; a refusal does so by itself.
#![tactic(auto)]

pub mod groups;
pub mod packets;
mod words;
