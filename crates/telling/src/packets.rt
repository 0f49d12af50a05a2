//! What a packet says.
ghost use Rattle.std.specs.Prelude.{◌≡◌, Some};
ghost use Rattle.packet.specs.Packets.{content_of, message_of};
ghost use Rattle.telling.specs.Lines.{direction_name, command_name, group_words, packet_line};

use crate::groups::{Change, CodeWords, ReadingWords};
use crate::words::write_words;
use field::words::{Command, Direction};
use packet::packet::{Body, Packet};
use std::fmt;

/// The groups of a packet, each as one more word of a line.
#[derive(Clone, Copy)]
struct GroupWords<'a>(Body<'a>);

/// What a packet says, as a line: request or answer, its version, number and command, and its groups.
#[derive(Clone, Copy)]
pub struct PacketLine<'a>(pub &'a Packet<'a>);

/// The name of a direction.
fn direction_name(direction: Direction) -> &'static str
    ensures { result.now ≡ direction_name direction }
{
    match direction {
        Direction::Request => "request",
        Direction::Answer => "answer",
    }
}

/// The name of a command.
fn command_name(command: Command) -> &'static str
    ensures { result.now ≡ command_name command }
{
    match command {
        Command::Read => "read",
        Command::Write => "write",
        Command::Discovery => "discovery",
    }
}

impl fmt::Display for GroupWords<'_> {
    ghost output = { λ g. Some (group_words (content_of g.0)) };

    fn fmt<W: fmt::Write>(&self, f: &mut fmt::Formatter<W>) -> fmt::Result {
        match self.0 {
            Body::ReadRequest(indices) => write_words(f, indices),
            Body::WriteRequest(writes) => write_words(f, writes.map(Change)),
            Body::DiscoveryRequest => Ok(()),
            Body::ReadAnswer(readings) | Body::DiscoveryAnswer(readings) => {
                ReadingWords(readings).fmt(f)
            }
            Body::WriteAnswer(codes) => CodeWords(codes).fmt(f),
        }
    }
}

impl fmt::Display for PacketLine<'_> {
    ghost output = { λ p. Some (packet_line (message_of p.0.now)) };

    fn fmt<W: fmt::Write>(&self, f: &mut fmt::Formatter<W>) -> fmt::Result {
        let packet = self.0;
        let direction = direction_name(packet.direction());
        let version = packet.version.word();
        let number = packet.number;
        let command = command_name(packet.command());
        let groups = GroupWords(packet.body);
        write!(f, "{direction} {version} {number} {command}{groups}")
    }
}
