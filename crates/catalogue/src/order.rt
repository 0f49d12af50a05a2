//! What a transaction can ask: to read at indices, or to make changes.
ghost use Rattle.std.specs.Prelude.{◌≡◌, Bool, true, map, IfOk};
ghost use Rattle.packet.specs.Messages.{Content, read_request, write_request, command_of, count_of};
ghost use Rattle.writer.specs.Orders.{counted, changes_allowed, change_of, asked};
ghost use Rattle.writer.specs.Written.{written, ReadsBack};

use field::words::Command;
use protocol::refusal::Refusal;
use writer::change::Change;
use writer::limits::{changes_allowed, indices_allowed};
use writer::requests::{write_read_request, write_write_request};

/// What a transaction asks.
pub(crate) trait Order: Copy {
    // Whether it keeps its limits, and what its packet says.
    ghost allowed: { Self → Bool };

    ghost content: { Self → Content };

    /// Whether it keeps its limits.
    fn is_allowed(self) -> bool
        ensures { result ≡ allowed self };

    /// The command of its packet.
    fn command(self) -> Command
        ensures { result ≡ command_of (content self) };

    /// How many groups its packet has.
    fn count(self) -> u8
        requires { allowed self ≡ true }
        ensures { result ≡ count_of (content self) };

    /// Writes its packet, with this number, to the front of a row, and tells the length.
    fn write(self, row: &mut [u8], number: u16) -> Result<usize, Refusal>
        ensures told { result ≡ (written (allowed self) (asked number (content self)) row.old).told }
        ensures row { row.new ≡ (written (allowed self) (asked number (content self)) row.old).row }
        ensures back { IfOk result (ReadsBack (asked number (content self))) };
}

/// To read the elements at these indices.
impl Order for &[u16] {
    ghost allowed = { λ indices. counted indices.now };

    ghost content = { λ indices. read_request indices.now };

    fn is_allowed(self) -> bool {
        indices_allowed(self)
    }

    fn command(self) -> Command {
        Command::Read
    }

    fn count(self) -> u8 {
        // At most 10 are allowed: `try_from` would have to name an error that cannot come.
        self.len() as u8
    }

    fn write(self, row: &mut [u8], number: u16) -> Result<usize, Refusal> {
        write_read_request(row, number, self)
    }
}

/// To make these changes.
impl Order for &[Change] {
    ghost allowed = { λ changes. changes_allowed changes.now };

    ghost content = { λ changes. write_request (map change_of changes.now) };

    fn is_allowed(self) -> bool {
        changes_allowed(self)
    }

    fn command(self) -> Command {
        Command::Write
    }

    fn count(self) -> u8 {
        // At most 10 are allowed: `try_from` would have to name an error that cannot come.
        self.len() as u8
    }

    fn write(self, row: &mut [u8], number: u16) -> Result<usize, Refusal> {
        write_write_request(row, number, self)
    }
}
