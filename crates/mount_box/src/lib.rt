//! The box: the station on a mount that answers. It holds one store of variables and sixteen sender records. The slab, with
//! a row for the kept reply of each record, and the reply buffer are handed in with each call.
//!     `MountBox`          the station, over any store
//!     `handle`            what becomes of a packet from a sender
//!     `owner_write`       the owner's write to the store
//!     `SenderTable`       the sixteen records, of which one at a time is lent to be changed
#![tactic(auto)]

mod carrying;
mod handling;
pub mod mount;
mod owner;
pub mod senders;
mod standing;
pub mod table;
mod tables;
