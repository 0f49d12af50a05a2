//! Parts of a packet.
ghost use Rattle.std.specs.Prelude.{◌≡◌};
ghost use Rattle.field.specs.Parts.{part_start};

/// A part of a packet: its text, and the place where it ends, in bytes from the packet's start.
#[derive(Clone, Copy)]
pub struct Part<'a> {
    pub text: &'a str,
    pub(crate) end: usize,
}

impl Part<'_> {
    /// The place where the part starts: how many bytes of the packet stand in front of it.
    pub fn start(&self) -> usize
        ensures { result ≡ part_start self.now }
    {
        self.end.saturating_sub(self.text.len())
    }
}
