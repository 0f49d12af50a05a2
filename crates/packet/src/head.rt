//! The head of a packet: its first four fields.
ghost use Rattle.std.specs.Prelude.{◌≡◌, drop};
ghost use Rattle.std.specs.Option.{option_map};
ghost use Rattle.field.specs.Parts.{part_bytes, fields_left, Onward};
ghost use Rattle.field.specs.Words.{direction_named};
ghost use Rattle.packet.specs.Rules.{ruled};
ghost use Rattle.packet.specs.Heads.{version_beside, head_by, head_of};

use crate::rules::{is_word, number_in};
use field::fields::Fields;
use field::part::Part;
use field::words::{Command, Direction, Version};
use protocol::refusal::Refusal;

/// What the head says.
#[derive(Clone, Copy)]
pub struct Head {
    pub version: Version,
    pub direction: Direction,
    pub number: u16,
    pub command: Command,
}

/// The version, which may be 1.0 only beside a command other than 3.
fn version_beside(command: Option<Part<'_>>, version: Option<Part<'_>>) -> Option<Version>
    ensures { result ≡ version_beside (option_map part_bytes command.entry) (option_map part_bytes version.entry) }
{
    let version = version?.text.parse().ok()?;
    if version == Version::V10 && is_word(command, "3") {
        return None;
    }
    Some(version)
}

/// The direction, if the field is there and names one.
fn direction_in(field: Option<Part<'_>>) -> Option<Direction>
    ensures { result ≡ ruled direction_named (option_map part_bytes field.entry) }
{
    field?.text.parse().ok()
}

/// The head of these four fields, or the refusal of the first at fault.
fn head_by(
    version: Option<Part<'_>>,
    direction: Option<Part<'_>>,
    number: Option<Part<'_>>,
    command: Option<Part<'_>>,
) -> Result<Head, Refusal>
    ensures { result ≡ head_by (option_map part_bytes version.entry) (option_map part_bytes direction.entry) (option_map part_bytes number.entry) (option_map part_bytes command.entry) }
{
    let version = version_beside(command, version).ok_or(Refusal::Head(0))?;
    let direction = direction_in(direction).ok_or(Refusal::Head(1))?;
    let number = number_in(number, 65535).ok_or(Refusal::Head(2))?;
    let command = number_in(command, 255).ok_or(Refusal::Head(3))?;
    let command = Command::try_from(command).map_err(|_| Refusal::Command(3))?;
    Ok(Head {
        version,
        direction,
        number,
        command,
    })
}

/// Reads the head from the first four fields.
pub(crate) fn read_head(fields: &mut Fields<'_>) -> Result<Head, Refusal>
    ensures head { result ≡ head_of (fields_left fields.old) }
    ensures after { fields_left fields.new ≡ drop 4 (fields_left fields.old) }
    ensures onward { Onward fields.old fields.new }
{
    let version = fields.next();
    let direction = fields.next();
    let number = fields.next();
    let command = fields.next();
    head_by(version, direction, number, command)
}
