//! Texts of characters that are known to be one.
ghost use Rattle.std.specs.Prelude.{◌≡◌, true};
ghost use Rattle.protocol.specs.Held.{text_bytes};
ghost use Rattle.protocol.specs.Texts.{textual};

use protocol::text::Text;

/// The text of characters that are one.
pub(crate) fn text_of(characters: &str) -> Text
    requires { textual characters.now ≡ true }
    ensures { text_bytes result ≡ characters.now }
{
    Text::new(characters.as_bytes()).unwrap()
}
