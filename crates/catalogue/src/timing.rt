//! How long a catalogue waits for answers.

/// The first interval and the longest one, in milliseconds, and how often a packet is sent again.
#[derive(Clone, Copy)]
pub struct Timing {
    pub(crate) first: u32,
    pub(crate) longest: u32,
    pub(crate) repeats: u32,
}

/// The latest time that a call accepts: 10^15.
pub(crate) const LATEST: u64 = 1_000_000_000_000_000;
