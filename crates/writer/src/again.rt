//! Writing again what was read: the same message, with each value of an answer in its one spelling.
ghost use Rattle.std.specs.Prelude.{◌≡◌, ℕ, ◌≤◌, true, List, take, IfOk};
ghost use Rattle.packet.specs.Messages.{packet_of, with_ok};
ghost use Rattle.packet.specs.Packets.{message_of};
ghost use Rattle.writer.specs.Again.{again, meant, rewritten};
ghost use Rattle.writer.specs.Written.{Ruled, Wrote};

use crate::write::write;
use packet::head::Head;
use packet::packet::{Body, Packet, read_packet};
use protocol::refusal::Refusal;

/// Writes what a packet says, each value of an answer in its one spelling, and tells its length.
fn write_packet(row: &mut [u8], packet: Packet<'_>) -> Result<usize, Refusal>
    ensures { Ruled (again (message_of packet.entry)) → Wrote true (again (message_of packet.entry)) row.old row.new result }
{
    let head = Head {
        version: packet.version,
        direction: packet.direction(),
        number: packet.number,
        command: packet.command(),
    };
    match packet.body {
        Body::ReadRequest(indices) => write(row, true, head, indices),
        Body::WriteRequest(writes) => write(row, true, head, writes),
        Body::DiscoveryRequest => write(row, true, head, [2u16, 3].iter()),
        Body::WriteAnswer(codes) => write(row, true, head, codes),
        Body::ReadAnswer(readings) | Body::DiscoveryAnswer(readings) => {
            write(row, true, head, readings)
        }
    }
}

/// Reads a packet and writes its message into the front of the row, each value of an answer in its one
/// spelling, and tells its length.
pub fn write_again(row: &mut [u8], bytes: &[u8]) -> Result<usize, Refusal>
    ensures told { result ≡ (rewritten bytes.now row.old).told }
    ensures row { row.new ≡ (rewritten bytes.now row.old).row }
    ensures back { IfOk result (λ n. packet_of (take n row.new) ≡ with_ok again (packet_of bytes.now)) }
    ensures short { IfOk result (λ n. n ≤ 485) }
    ensures same { IfOk result (λ n. with_ok meant (packet_of (take n row.new)) ≡ with_ok meant (packet_of bytes.now)) }
    ensures once { IfOk result (λ n. (other : List ℕ) → rewritten (take n row.new) other ≡ rewritten bytes.now other) }
{
    // A short row is refused before the packet is read.
    if row.len() < 512 {
        return Err(Refusal::ShortMemory);
    }
    write_packet(row, read_packet(bytes)?)
}
