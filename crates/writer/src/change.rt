//! What a write request is to change.
ghost use Rattle.std.specs.Prelude.{◌≡◌, []};
ghost use Rattle.std.specs.Option.{option_map, unwrap_or};
ghost use Rattle.protocol.specs.Held.{text_bytes};
ghost use Rattle.protocol.specs.Texts.{text_of};

use protocol::text::Text;

/// An index and the text to write there, or none where what was handed in is no text.
#[derive(Clone, Copy)]
pub struct Change {
    pub index: u16,
    pub text: Option<Text>,
}

impl Change {
    /// The change of the element at the index to these bytes.
    pub fn new(index: u16, bytes: &[u8]) -> Change
        ensures index { result.index ≡ index }
        ensures text { option_map text_bytes result.text ≡ text_of bytes.now }
    {
        Change {
            index,
            text: Text::new(bytes),
        }
    }

    /// The bytes of the text, where there is one.
    pub(crate) fn bytes(&self) -> &[u8]
        ensures { result.now ≡ unwrap_or (option_map text_bytes self.now.text) [] }
    {
        self.text.as_ref().map_or(&[], Text::as_bytes)
    }
}
