//! Digits that stand in a text.
ghost use Rattle.std.specs.Prelude.{◌≡◌, true};
ghost use Rattle.std.specs.Str.{all_ascii_digits};

/// Bytes that are digits, or none.
#[derive(Clone, Copy)]
pub(crate) struct Digits<'a> {
    pub(crate) bytes: &'a [u8],
    ghost digits: { all_ascii_digits bytes.now ≡ true },
}
