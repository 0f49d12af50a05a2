//! Writing what a catalogue asks. Each call names its message in its contract, so it stays beside the others, and
//! `write` does the work of all.
ghost use Rattle.std.specs.Prelude.{◌≡◌, true, map, IfOk};
ghost use Rattle.packet.specs.Messages.{read_request, write_request, discovery_request};
ghost use Rattle.writer.specs.Orders.{counted, change_of, changes_allowed, asked, asked_head};
ghost use Rattle.writer.specs.Written.{written, ReadsBack};

use crate::change::Change;
use crate::limits::{changes_allowed, indices_allowed};
use crate::write::write;
use field::words::{Command, Direction, Version};
use packet::head::Head;
use protocol::refusal::Refusal;

/// The head of a request of ours, which has version 1.1.
fn request(number: u16, command: Command) -> Head
    ensures { result ≡ asked_head number command }
{
    Head {
        version: Version::V11,
        direction: Direction::Request,
        number,
        command,
    }
}

/// Writes a read request, and tells its length.
pub fn write_read_request(row: &mut [u8], number: u16, indices: &[u16]) -> Result<usize, Refusal>
    ensures told { result ≡ (written (counted indices.now) (asked number (read_request indices.now)) row.old).told }
    ensures row { row.new ≡ (written (counted indices.now) (asked number (read_request indices.now)) row.old).row }
    ensures back { IfOk result (ReadsBack (asked number (read_request indices.now))) }
{
    let head = request(number, Command::Read);
    write(row, indices_allowed(indices), head, indices.iter())
}

/// Writes a write request, and tells its length.
pub fn write_write_request(
    row: &mut [u8],
    number: u16,
    changes: &[Change],
) -> Result<usize, Refusal>
    ensures told { result ≡ (written (changes_allowed changes.now) (asked number (write_request (map change_of changes.now))) row.old).told }
    ensures row { row.new ≡ (written (changes_allowed changes.now) (asked number (write_request (map change_of changes.now))) row.old).row }
    ensures back { IfOk result (ReadsBack (asked number (write_request (map change_of changes.now)))) }
{
    let head = request(number, Command::Write);
    write(row, changes_allowed(changes), head, changes.iter())
}

/// Writes a Discovery request, which has the number 0, and tells its length.
pub fn write_discovery_request(row: &mut [u8]) -> Result<usize, Refusal>
    ensures told { result ≡ (written true (asked 0 discovery_request) row.old).told }
    ensures row { row.new ≡ (written true (asked 0 discovery_request) row.old).row }
    ensures back { IfOk result (ReadsBack (asked 0 discovery_request)) }
{
    let head = request(0, Command::Discovery);
    write(row, true, head, [2u16, 3].iter())
}
