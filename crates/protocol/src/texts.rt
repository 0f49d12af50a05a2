//! Making, reading and comparing texts.
ghost use Rattle.std.specs.Prelude.{◌≡◌, ◌≤◌, true, length, Some, nat_eq};
ghost use Rattle.std.specs.Option.{option_map};
ghost use Rattle.std.specs.Cmp.{on_equiv, on_per, partial_equiv_from_equiv};
ghost use Rattle.std.specs.Cmp.Lexicographic.{pointwise, nat_list_eq_equiv};
ghost use Rattle.protocol.specs.Texts.{reserved, free, sized, textual, text_of};
ghost use Rattle.protocol.specs.Held.{text_bytes};

use crate::text::Text;
use std::fmt;
use std::str::{from_utf8, from_utf8_unchecked};

/// Whether a packet reserves the byte.
fn is_reserved(b: u8) -> bool
    ensures { result ≡ reserved b }
{
    b == b'{' || b == b'}' || b == b':'
}

/// Whether none of the bytes is reserved. (A loop, and not `any`: so the compiler works it out for a text that stands in
/// the code, and it takes no longer for any other.)
fn is_free(bytes: &[u8]) -> bool
    ensures { result ≡ free bytes.now }
{
    for b in bytes {
        if is_reserved(*b) {
            return false;
        }
    }
    true
}

/// Whether there are 1 to 40 bytes.
fn is_sized(bytes: &[u8]) -> bool
    ensures { result ≡ sized bytes.now }
{
    (1..=40).contains(&bytes.len())
}

impl Text {
    /// The text of these bytes, if they are one.
    pub fn new(bytes: &[u8]) -> Option<Text>
        ensures { option_map text_bytes result ≡ text_of bytes.now }
    {
        if !is_sized(bytes) || !is_free(bytes) || from_utf8(bytes).is_err() {
            return None;
        }
        let n = bytes.len();
        let mut held = [0; 40];
        held[..n].copy_from_slice(bytes);
        Some(Text {
            bytes: held,
            len: n as u8,
        })
    }

    /// The characters of the text.
    pub fn as_str(&self) -> &str
        ensures value { result.now ≡ text_bytes self.now }
        ensures plain { textual result.now ≡ true }
    {
        unsafe { from_utf8_unchecked(self.as_bytes()) }
    }

    /// The bytes of the text.
    pub fn as_bytes(&self) -> &[u8]
        ensures value { result.now ≡ text_bytes self.now }
        ensures plain { textual result.now ≡ true }
        ensures short { (1 ≤ length result.now) × (length result.now ≤ 40) }
    {
        &self.bytes[0..self.len as usize]
    }
}

/// By the bytes of the texts: what lies behind them does not count.
impl PartialEq for Text {
    ghost eq = { λ s t. pointwise nat_eq (text_bytes s) (text_bytes t) };

    ghost laws = { on_per text_bytes (partial_equiv_from_equiv nat_list_eq_equiv) };

    fn eq(&self, other: &Text) -> bool {
        self.as_bytes() == other.as_bytes()
    }
}

impl Eq for Text {
    ghost laws = { on_equiv text_bytes nat_list_eq_equiv };
}

/// Writes the characters.
impl fmt::Display for Text {
    ghost output = { λ t. Some (text_bytes t) };

    fn fmt<W: fmt::Write>(&self, f: &mut fmt::Formatter<W>) -> fmt::Result {
        f.write_str(self.as_str())
    }
}
