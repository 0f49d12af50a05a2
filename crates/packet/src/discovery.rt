//! The payload of a Discovery request.
ghost use Rattle.std.specs.Prelude.{◌≡◌, Some};
ghost use Rattle.field.specs.Fields.{fields};
ghost use Rattle.field.specs.Parts.{part_bytes};
ghost use Rattle.packet.specs.Groups.{discovery_of};

use crate::rules::is_word;
use field::fields::Fields;
use field::part::Part;

/// Reads the payload of a Discovery request, which is just the indices 2 and 3, or tells the number of the first field
/// at fault, as a refusal does.
pub(crate) fn read_discovery(payload: Part<'_>) -> Result<(), u8>
    ensures { result ≡ discovery_of (fields (part_bytes payload.entry)) }
{
    let mut fields = Fields {
        rest: Some(payload),
    };
    if !is_word(fields.next(), "2") {
        return Err(4);
    }
    if !is_word(fields.next(), "3") {
        return Err(5);
    }
    if !fields.is_empty() {
        return Err(6);
    }
    Ok(())
}
