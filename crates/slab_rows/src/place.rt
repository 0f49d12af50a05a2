//! Where a packet lies in the memory that a station was handed.

/// The place of a packet.
#[derive(Clone, Copy, Debug, PartialEq, Eq)]
pub enum Place {
    /// In the slab: where it starts, in bytes from the slab's start, and how long it is.
    Slab { start: usize, length: usize },
    /// At the start of the reply buffer: how long it is.
    Reply { length: usize },
}
