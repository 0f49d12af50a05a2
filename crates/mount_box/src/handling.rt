//! Handling a packet.
ghost use Rattle.std.specs.Prelude.{◌≡◌, ℕ, ◌≤◌, List, length};
ghost use Rattle.packet.specs.Packets.{message_of};
ghost use Rattle.mount_box.specs.Senders.{standing};
ghost use Rattle.mount_box.specs.Handling.{by_standing, by_content, handled};
ghost use Rattle.mount_box.specs.Answers.{Received, Orders};
ghost use Rattle.mount_box.specs.Promises.{Repeats, Groups, Others, Back};
ghost use Rattle.mount_box.specs.Views.{box_of, outcome};

use crate::carrying::carry_out;
use crate::mount::MountBox;
use crate::senders::SenderRecord;
use crate::standing::Standing;
use packet::packet::{Body, Packet, read_packet};
use protocol::refusal::Refusal;
use slab_rows::place::Place;
use store::store::Store;

// Row k of the slab is the 512 bytes from 512 × k on: a rule of the link, which contracts name, so it is written out.
impl<S: Store> MountBox<S> {
    /// Serves a read or write request: a repeat gets the kept reply, and what is due is carried out.
    fn serve(&mut self, slab: &mut [u8], sender: u32, request: Packet<'_>) -> Result<Place, Refusal>
        requires room { 8192 ≤ length slab.old }
        requires received { Received (message_of request) }
        requires orders { Orders (message_of request).content }
        ensures served { (reply : List ℕ) → outcome result (box_of S.meaning self.new slab.new reply) ≡ by_standing (box_of S.meaning self.old slab.old reply) sender (message_of request.entry) (standing self.old.senders.records sender request.entry.number) }
    {
        match self.senders.standing(sender, request.number)? {
            Standing::Repeated { row, length } => Ok(Place::Slab {
                start: 512 * row,
                length: usize::from(length),
            }),
            Standing::Due { row } => {
                let start = 512 * row;
                let length = carry_out(&mut self.store, &mut slab[start..start + 512], request)?;
                *self.senders.record_mut(row) = Some(SenderRecord {
                    address: sender,
                    newest: request.number,
                    length: length as u16,
                });
                Ok(Place::Slab { start, length })
            }
        }
    }

    /// Handles a packet from a sender, and tells the place of the reply. `slab_rows::part::hand_out` hands it out.
    pub fn handle(
        &mut self,
        slab: &mut [u8],
        reply: &mut [u8],
        sender: u32,
        packet: &[u8],
    ) -> Result<Place, Refusal>
        ensures handled { outcome result (box_of S.meaning self.new slab.new reply.new) ≡ handled (box_of S.meaning self.old slab.old reply.old) sender packet.now }
        ensures repeat { Repeats sender packet.now (outcome result (box_of S.meaning self.new slab.new reply.new)) }
        ensures groups { Groups (box_of S.meaning self.old slab.old reply.old) sender packet.now (outcome result (box_of S.meaning self.new slab.new reply.new)) }
        ensures others { Others (box_of S.meaning self.old slab.old reply.old) sender (outcome result (box_of S.meaning self.new slab.new reply.new)) }
        ensures back { Back (box_of S.meaning self.old slab.old reply.old) sender packet.now (outcome result (box_of S.meaning self.new slab.new reply.new)) }
    {
        if slab.len() < 8192 || reply.len() < 512 {
            return Err(Refusal::ShortMemory);
        }
        let request = read_packet(packet)?;
        match request.body {
            Body::ReadRequest(_) | Body::WriteRequest(_) => self.serve(slab, sender, request),
            Body::DiscoveryRequest => {
                let length = carry_out(&mut self.store, reply, request)?;
                Ok(Place::Reply { length })
            }
            Body::ReadAnswer(_) | Body::WriteAnswer(_) | Body::DiscoveryAnswer(_) => {
                Err(Refusal::Direction)
            }
        }
    }
}
