//! Receiving answers.
ghost use Rattle.std.specs.Prelude.{◌≡◌, IfOk, OnOk, OnErr};
ghost use Rattle.packet.specs.Packets.{message_of, seen, Counted, PacketWithin};
ghost use Rattle.slab_rows.specs.Places.{told};
ghost use Rattle.catalogue.specs.Kept.{Sound};
ghost use Rattle.catalogue.specs.Stations.{partner_at};
ghost use Rattle.catalogue.specs.Receiving.{agrees, by_content, receiving};
ghost use Rattle.catalogue.specs.Promises.{tallied_receiving, Others};

use crate::catalogue::Catalogue;
use crate::partner::Waiting;
use field::words::Direction;
use packet::packet::{Packet, read_packet};
use protocol::refusal::Refusal;

impl Waiting {
    /// Whether number, command and count of groups of the answer are those of the transaction.
    fn agrees(self, answer: &Packet<'_>) -> bool
        requires { Counted answer.now.body }
        ensures { result ≡ agrees self (message_of answer.now) }
    {
        self.number == answer.number
            && self.command == answer.command()
            && self.count == answer.count()
    }
}

// `Counted` and `PacketWithin` say of the packet handed out what `read_packet` says: of which bytes it is a part, no type tells.
impl Catalogue {
    /// Settles the transaction that an answer belongs to, or turns a packet down.
    fn settle(&mut self, sender: u32, answer: &Packet<'_>) -> Result<(), Refusal>
        requires { Counted answer.now.body }
        ensures answer { told (λ _. message_of answer.now) result ≡ (by_content self.old sender (message_of answer.now) (message_of answer.now).content).answer }
        ensures after { self.new ≡ (by_content self.old sender (message_of answer.now) (message_of answer.now).content).after }
        ensures refused { OnErr result (self.new ≡ self.old) }
        ensures sound { OnOk result (Sound self.new) }
    {
        if answer.direction() == Direction::Request {
            return Err(Refusal::Direction);
        }
        let k = self.partner_at(sender).ok_or(Refusal::Unknown)?;
        let waiting = self.known(k)?.waiting.ok_or(Refusal::NoMatch)?;
        if !waiting.agrees(answer) {
            return Err(Refusal::NoMatch);
        }
        self.partners[k].waiting = None;
        self.counts.answered += 1;
        Ok(())
    }

    /// Receives a packet from this sender. An answer to the transaction that waits at the sender's is told and settles it.
    pub fn receive<'a>(&mut self, sender: u32, packet: &'a [u8]) -> Result<Packet<'a>, Refusal>
        ensures answer { seen result ≡ (receiving self.old sender packet.now).answer }
        ensures after { self.new ≡ (receiving self.old sender packet.now).after }
        ensures counts { self.new.counts ≡ tallied_receiving self.old.counts result }
        ensures others { Others (partner_at self.old.partners sender) self.old self.new }
        ensures count { IfOk result (λ p. Counted p.body) }
        ensures place { IfOk result (PacketWithin packet.now) }
        ensures sound { Sound self.new }
    {
        // A packet that is none uses nothing of the station: what every station keeps is known from the first use on.
        let _ = &self.clock;
        let answer = read_packet(packet)?;
        self.settle(sender, &answer)?;
        Ok(answer)
    }
}
