//! Texts.
ghost use Rattle.std.specs.Prelude.{◌≡◌, ◌≤◌, true, take};
ghost use Rattle.protocol.specs.Texts.{textual};

/// A text: the first `len` of the bytes, which are UTF-8 without `{`, `}` and `:`, 1 to 40 of them. (Bytes and a length,
/// and no `ArrayString`: a value that holds one, whose contracts see its model alone, is not copied where it is passed.)
#[derive(Clone, Copy)]
pub struct Text {
    pub(crate) bytes: [u8; 40],
    pub(crate) len: u8,
    ghost short: { len ≤ 40 },
    ghost plain: { textual (take len bytes) ≡ true },
}
