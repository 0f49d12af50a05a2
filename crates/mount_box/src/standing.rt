//! How a request stands by the sender records.

/// A request that is not refused.
#[derive(Clone, Copy, Debug, PartialEq, Eq)]
pub(crate) enum Standing {
    /// The number again that this record has, with the length of the kept reply.
    Repeated { row: usize, length: u16 },
    /// To be carried out for this record.
    Due { row: usize },
}
