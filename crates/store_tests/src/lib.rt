//! Tables of calls on each store: what is answered at and beside the limits, in gaps, at fixed elements and for every type.
#![tactic(auto)]

#[cfg(test)]
mod houses;
#[cfg(test)]
mod joins;
#[cfg(test)]
mod lists;
#[cfg(test)]
mod shelves;
#[cfg(test)]
mod star_rows;
#[cfg(test)]
mod table;
