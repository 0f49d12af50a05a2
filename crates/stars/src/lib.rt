//! The star rows: a store that is worked out from a star catalogue.
//!     `StarRows`   the store
#![tactic(auto)]

pub mod making;
pub mod rows;
pub mod stored;
