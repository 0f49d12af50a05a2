//! The stars of all catalogue files, and what became of each row.
//!     `Lines`   the lines of a file
//!     `Chart`   the stars of the rows that are used
#![tactic(auto)]

pub mod chart;
pub mod lines;
