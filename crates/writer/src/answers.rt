//! Writing what a box answers. An answer bears the version and the number of its request. Each call names its message
//! in its contract, so it stays beside the others, and `write` does the work of all.
ghost use Rattle.std.specs.Prelude.{◌≡◌, ◌&&◌, [], ◌∷◌, map, IfOk};
ghost use Rattle.field.specs.declared.words.Version.TheVariants.{V11};
ghost use Rattle.packet.specs.Messages.{read_answer, write_answer, discovery_answer};
ghost use Rattle.writer.specs.Orders.{counted, readout_of, told, readings_allowed, answered, answered_head};
ghost use Rattle.writer.specs.Written.{written, ReadsBack};

use crate::limits::{all_told, codes_allowed, readings_allowed};
use crate::write::write;
use field::words::{Command, Direction, Version};
use packet::head::Head;
use protocol::code::Code;
use protocol::refusal::Refusal;
use value::value::Value;

/// The head of an answer, in the version of its request.
fn answer(version: Version, number: u16, command: Command) -> Head
    ensures { result ≡ answered_head version number command }
{
    Head {
        version,
        direction: Direction::Answer,
        number,
        command,
    }
}

/// Writes a read answer, and tells its length.
pub fn write_read_answer(
    row: &mut [u8],
    version: Version,
    number: u16,
    readings: &[Result<Value, Code>],
) -> Result<usize, Refusal>
    ensures told { result ≡ (written (readings_allowed readings.now) (answered version number (read_answer (map readout_of readings.now))) row.old).told }
    ensures row { row.new ≡ (written (readings_allowed readings.now) (answered version number (read_answer (map readout_of readings.now))) row.old).row }
    ensures back { IfOk result (ReadsBack (answered version number (read_answer (map readout_of readings.now)))) }
{
    let head = answer(version, number, Command::Read);
    write(row, readings_allowed(readings), head, readings.iter())
}

/// Writes a write answer, and tells its length.
pub fn write_write_answer(
    row: &mut [u8],
    version: Version,
    number: u16,
    codes: &[Code],
) -> Result<usize, Refusal>
    ensures told { result ≡ (written (counted codes.now) (answered version number (write_answer codes.now)) row.old).told }
    ensures row { row.new ≡ (written (counted codes.now) (answered version number (write_answer codes.now)) row.old).row }
    ensures back { IfOk result (ReadsBack (answered version number (write_answer codes.now))) }
{
    let head = answer(version, number, Command::Write);
    write(row, codes_allowed(codes), head, codes.iter())
}

/// Writes a Discovery answer, and tells its length. Discovery has version 1.1.
pub fn write_discovery_answer(
    row: &mut [u8],
    number: u16,
    identifier: Result<Value, Code>,
    security: Result<Value, Code>,
) -> Result<usize, Refusal>
    ensures told { result ≡ (written (told identifier && told security) (answered V11 number (discovery_answer (readout_of identifier ∷ readout_of security ∷ []))) row.old).told }
    ensures row { row.new ≡ (written (told identifier && told security) (answered V11 number (discovery_answer (readout_of identifier ∷ readout_of security ∷ []))) row.old).row }
    ensures back { IfOk result (ReadsBack (answered V11 number (discovery_answer (readout_of identifier ∷ readout_of security ∷ [])))) }
{
    let head = answer(Version::V11, number, Command::Discovery);
    let readings = [identifier, security];
    write(row, all_told(&readings), head, readings.iter())
}
