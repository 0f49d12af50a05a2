//! The table of the sender records.
use crate::senders::SenderRecord;

/// The sender records of a box, with none where a record is empty. Record k goes with row k of the slab. The ghost field
/// says nothing: only where a struct has one does the checker follow a `&mut` to an element of an array field.
#[derive(Drop)]
pub struct SenderTable {
    pub(crate) records: [Option<SenderRecord>; 16],
    ghost ok: { Unit {0} },
}
