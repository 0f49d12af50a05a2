//! The rows of a star catalogue, and the coordinates of a star as people write them.
//! A `Star` holds a name and two angles inside their ranges; `Star::new` and `read_row` make one or tell what is at fault.
#![tactic(auto)]

pub mod degrees;
pub mod fault;
pub mod hours;
pub mod making;
pub mod names;
pub mod rows;
pub mod star;
