//! The frame of a packet: its length, its braces and its bytes as UTF-8.
ghost use Rattle.std.specs.Prelude.{◌≡◌, IfOk, if◌then◌else◌, Some, None};
ghost use Rattle.std.specs.Option.{option_map};
ghost use Rattle.field.specs.Frames.{plain, framed, inside, fields_of};
ghost use Rattle.field.specs.Parts.{told_fields, Within};

use crate::fields::Fields;
use crate::part::Part;
use protocol::refusal::Refusal;
use std::str::from_utf8;

/// Whether no brace is among the bytes.
fn is_plain(bytes: &[u8]) -> bool
    ensures { result ≡ plain bytes.now }
{
    bytes.iter().all(|b| *b != b'{' && *b != b'}')
}

/// What stands between the two braces of a packet that has no others.
fn inside_of(packet: &[u8]) -> Option<&[u8]>
    ensures { option_map (λ x. x.now) result ≡ (if framed packet.now then Some (inside packet.now) else None) }
{
    match packet {
        [b'{', body @ .., b'}'] if is_plain(body) => Some(body),
        _ => None,
    }
}

/// The fields of a packet of at most 512 bytes that is framed and UTF-8.
pub fn fields_of(packet: &[u8]) -> Result<Fields<'_>, Refusal>
    ensures fields { told_fields result ≡ fields_of packet.now }
    ensures place { IfOk result (λ f. Within packet.now f) }
{
    if packet.len() > 512 {
        return Err(Refusal::TooLong);
    }
    let body = inside_of(packet).ok_or(Refusal::Frame)?;
    let text = from_utf8(body).map_err(|_| Refusal::NotUtf8)?;
    let end = packet.len() - 1;
    let rest = Some(Part { text, end });
    Ok(Fields { rest })
}
