//! The sender records.

/// What a box keeps of a sender: its address, the newest number that it carried out for it, and the length of the reply
/// to that, which lies in the row of the record.
#[derive(Clone, Copy, Debug, PartialEq, Eq)]
pub struct SenderRecord {
    pub(crate) address: u32,
    pub(crate) newest: u16,
    pub(crate) length: u16,
}
