//! Packets: what they are about, and reading them.
ghost use Rattle.std.specs.Prelude.{◌≡◌, ℕ, List, drop, IfOk, Ok};
ghost use Rattle.std.specs.Option.{option_map};
ghost use Rattle.field.specs.Fields.{fields, first};
ghost use Rattle.field.specs.Frames.{fields_of};
ghost use Rattle.field.specs.Parts.{part_bytes, fields_left, Stands, Hands};
ghost use Rattle.packet.specs.Messages.{direction_of, command_of, Bounded, Kept, content_by, packet_of};
ghost use Rattle.packet.specs.Packets.{message_of, told_body, seen, body_count, Counted, BodyWithin, PacketWithin};

use crate::codes::Codes;
use crate::discovery::read_discovery;
use crate::head::read_head;
use crate::indices::Indices;
use crate::readings::Readings;
use crate::writes::Writes;
use field::fields::Fields;
use field::frame::fields_of;
use field::part::Part;
use field::words::{Command, Direction, Version};
use protocol::refusal::Refusal;

/// What a packet asks or answers.
#[derive(Clone, Copy)]
pub enum Body<'a> {
    ReadRequest(Indices<'a>),
    WriteRequest(Writes<'a>),
    DiscoveryRequest,
    ReadAnswer(Readings<'a>),
    WriteAnswer(Codes<'a>),
    DiscoveryAnswer(Readings<'a>),
}

/// A packet that follows the rules.
#[derive(Clone, Copy)]
pub struct Packet<'a> {
    pub(crate) fields: Fields<'a>,
    pub version: Version,
    pub number: u16,
    pub body: Body<'a>,
}

// Three calls match the six bodies: each answers something of another type, which one table would only wrap.
impl<'a> Packet<'a> {
    /// Whether the packet asks or answers.
    pub fn direction(&self) -> Direction
        ensures { result ≡ direction_of (message_of self.now).content }
    {
        match self.body {
            Body::ReadRequest(_) | Body::WriteRequest(_) | Body::DiscoveryRequest =>
                Direction::Request,
            Body::ReadAnswer(_) | Body::WriteAnswer(_) | Body::DiscoveryAnswer(_) =>
                Direction::Answer,
        }
    }

    /// What the packet is about.
    pub fn command(&self) -> Command
        ensures { result ≡ command_of (message_of self.now).content }
    {
        match self.body {
            Body::ReadRequest(_) | Body::ReadAnswer(_) => Command::Read,
            Body::WriteRequest(_) | Body::WriteAnswer(_) => Command::Write,
            Body::DiscoveryRequest | Body::DiscoveryAnswer(_) => Command::Discovery,
        }
    }

    /// How many groups the packet has.
    pub fn count(&self) -> u8
        ensures { result ≡ body_count self.now.body }
    {
        match self.body {
            Body::ReadRequest(indices) => indices.left,
            Body::WriteRequest(writes) => writes.left,
            Body::DiscoveryRequest => 2,
            Body::ReadAnswer(readings) | Body::DiscoveryAnswer(readings) => readings.left,
            Body::WriteAnswer(codes) => codes.left,
        }
    }

    /// Field `k` of the packet, counted from 0, with its place.
    pub fn field(&self, k: u8) -> Option<Part<'a>>
        ensures field { option_map part_bytes result ≡ first (drop k (fields_left self.now.fields)) }
        ensures place { Hands self.now.fields result }
    {
        let mut fields = self.fields;
        fields.nth(usize::from(k))
    }
}

/// Reads the payload as direction and command say, or tells the number of the first field at fault, as a refusal does.
fn read_body<'a>(direction: Direction, command: Command, payload: Part<'a>) -> Result<Body<'a>, u8>
    ensures content { told_body result ≡ content_by direction command (fields (part_bytes payload.entry)) }
    ensures count { IfOk result Counted }
    ensures place { IfOk result (λ body. (packet : List ℕ) → Stands packet payload.entry → BodyWithin packet body) }
{
    Ok(match (direction, command) {
        (Direction::Request, Command::Read) => Body::ReadRequest(Indices::read(payload, 1, 10)?),
        (Direction::Request, Command::Write) => Body::WriteRequest(Writes::read(payload, 1, 10)?),
        (Direction::Request, Command::Discovery) => {
            read_discovery(payload)?;
            Body::DiscoveryRequest
        }
        (Direction::Answer, Command::Read) => Body::ReadAnswer(Readings::read(payload, 1, 10)?),
        (Direction::Answer, Command::Write) => Body::WriteAnswer(Codes::read(payload, 1, 10)?),
        (Direction::Answer, Command::Discovery) => Body::DiscoveryAnswer(Readings::read(
            payload, 2, 2,
        )?),
    })
}

/// Reads a packet, or tells the first ground on which it is refused.
pub fn read_packet(bytes: &[u8]) -> Result<Packet<'_>, Refusal>
    ensures read { seen result ≡ packet_of bytes.now }
    ensures count { IfOk result (λ p. Counted p.body) }
    ensures bounds { IfOk result (λ p. Bounded (message_of p)) }
    ensures kept { IfOk result (λ p. Kept (message_of p).content) }
    ensures fields { IfOk result (λ p. Ok (fields_left p.fields) ≡ fields_of bytes.now) }
    ensures place { IfOk result (PacketWithin bytes.now) }
{
    let all = fields_of(bytes)?;
    let mut fields = all;
    let head = read_head(&mut fields)?;
    let payload = fields.rest.ok_or(Refusal::Payload(4))?;
    let body = read_body(head.direction, head.command, payload).map_err(Refusal::Payload)?;
    // The head's other two fields are told by which body it is.
    Ok(Packet {
        fields: all,
        version: head.version,
        number: head.number,
        body,
    })
}
