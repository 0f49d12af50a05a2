//! Discovery, which is no transaction: it asks every station who it is.
ghost use Rattle.std.specs.Prelude.{◌≡◌, IfOk};
ghost use Rattle.packet.specs.Packets.{seen, Counted, PacketWithin};
ghost use Rattle.catalogue.specs.Receiving.{discovering, discovery_read};

use packet::packet::{Body, Packet, read_packet};
use protocol::refusal::Refusal;
use slab_rows::place::Place;
use writer::requests::write_discovery_request;

/// Writes a Discovery request to the start of the reply buffer.
pub fn discover(reply: &mut [u8]) -> Result<Place, Refusal>
    ensures answer { result ≡ (discovering reply.old).answer }
    ensures reply { reply.new ≡ (discovering reply.old).reply }
{
    write_discovery_request(reply).map(|length| Place::Reply { length })
}

/// Reads a Discovery answer.
pub fn read_discovery(packet: &[u8]) -> Result<Packet<'_>, Refusal>
    ensures answer { seen result ≡ discovery_read packet.now }
    ensures count { IfOk result (λ p. Counted p.body) }
    ensures place { IfOk result (PacketWithin packet.now) }
{
    let answer = read_packet(packet)?;
    match answer.body {
        Body::DiscoveryAnswer(_) => Ok(answer),
        Body::ReadAnswer(_) | Body::WriteAnswer(_) => Err(Refusal::NoMatch),
        _ => Err(Refusal::Direction),
    }
}
