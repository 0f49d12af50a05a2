//! Whole numbers as text.
ghost use Rattle.std.specs.Prelude.{◌≡◌};
ghost use Rattle.std.specs.Fmt.{signed_decimal};
ghost use Rattle.protocol.specs.Held.{text_bytes};
ghost use Rattle.value.specs.Whole.{begins, ReadsInto};

use crate::text::text_of;
use itoa::Buffer;
use protocol::text::Text;

/// Whether the first bytes may begin a whole number: no plus, no leading zero, no minus zero.
fn begins_whole(text: &[u8]) -> bool
    ensures { result ≡ begins text.now }
{
    matches!(text, [b'0'] | [b'1'..=b'9', ..] | [b'-', b'1'..=b'9', ..])
}

/// The whole number that the text writes, if the type has it.
pub(crate) fn read_whole<T: TryFrom<i64>>(text: &Text) -> Option<T>
where
    T::Error: Drop,
    ensures { ReadsInto T.try_from_gives (text_bytes text.now) result }
{
    let digits = text.as_str();
    if !begins_whole(digits.as_bytes()) {
        return None;
    }
    let number = digits.parse::<i64>().ok()?;
    T::try_from(number).ok()
}

/// The one spelling of a whole number.
pub(crate) fn spell_whole(n: i64) -> Text
    ensures { text_bytes result ≡ signed_decimal n }
{
    let mut buffer = Buffer::new();
    text_of(buffer.format(n))
}
