//! What the calls of a catalogue tell.
use slab_rows::place::Place;

/// A transaction that was opened: its number, and where the packet to send lies.
#[derive(Clone, Copy)]
pub struct Sent {
    pub number: u16,
    pub place: Place,
}

/// What polling a partner tells.
#[derive(Clone, Copy)]
pub enum Poll {
    /// No transaction waits there, or its deadline is still to come.
    NothingDue,
    /// The packet at this place is to be sent again.
    Again(Place),
    /// The transaction with this number is given up.
    Failed(u16),
}

/// How many transactions were opened, answered, failed and withdrawn, and how many packets were sent again.
#[derive(Clone, Copy, Default)]
pub struct Counts {
    pub opened: u64,
    pub answered: u64,
    pub failed: u64,
    pub withdrawn: u64,
    pub repeated: u64,
}
