//! The catalogue: the station that asks. It opens read and write transactions with up to sixteen partners, sends each again
//! at growing intervals, and gives up. Times and answers are handed in. The packets lie in its slab, which is handed in with
//! each opening: one row for each partner.
//!     `Catalogue`     the station
//!     `Timing`        how long it waits for answers
//!     `Partner`       what it keeps of a partner, and of the transaction that waits there
//!     `Order`         what a transaction can ask
//!     `Poll`, `Sent`  what polling and opening tell
#![tactic(auto)]

pub mod backoff;
pub mod catalogue;
pub mod discovery;
pub mod making;
pub mod opening;
pub mod order;
pub mod partner;
pub mod partners;
pub mod polling;
pub mod receiving;
pub mod timing;
pub mod told;
pub mod withdrawing;
