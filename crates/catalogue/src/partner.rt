//! Partners, and the transactions that wait.
use field::words::Command;

/// A transaction that waits for its answer: what its packet was, when it is due to be sent again, the present interval, and
/// how often it was sent again. The packet itself lies in the slab, which is lent, so its length stands here. How large the
/// interval can be follows from the station's timing, which this does not have: the station's invariant says it.
#[derive(Clone, Copy)]
pub struct Waiting {
    pub(crate) number: u16,
    pub(crate) command: Command,
    pub(crate) count: u8,
    pub(crate) length: usize,
    pub(crate) deadline: u64,
    pub(crate) interval: u32,
    pub(crate) repeats: u8,
}

/// A partner: its address, the number of its next transaction, and the transaction that waits, if one does.
#[derive(Clone, Copy, Default)]
pub struct Partner {
    pub(crate) address: u32,
    pub(crate) next: u32,
    pub(crate) waiting: Option<Waiting>,
}
