//! The grounds on which a station turns a call down.
ghost use Rattle.std.specs.Prelude.{◌≡◌, Some};
ghost use Rattle.protocol.specs.Words.{refusal_number, refusal_field, refusal_line};

use std::error::Error;
use std::fmt;

/// Why a call is turned down. A refused call changes nothing. Where several grounds hold, the one
/// with the lowest number is told.
#[derive(Clone, Copy, Debug, PartialEq, Eq)]
pub enum Refusal {
    /// The time is below one that the station accepted, or above 10^15.
    Time,
    /// The slab or the reply buffer is too short.
    ShortMemory,
    /// The packet is longer than 512 bytes.
    TooLong,
    /// The packet does not start with { and end with }, or has another brace.
    Frame,
    /// The packet is not UTF-8.
    NotUtf8,
    /// A head field breaks its rule. The first such field is told.
    Head(u8),
    /// The command is none of the known ones. Its field is told.
    Command(u8),
    /// The payload breaks its rule. The first field at fault is told.
    Payload(u8),
    /// An answer where a request is due, or the reverse.
    Direction,
    /// The partner or sender is not enlisted, or unknown while all records are filled.
    Unknown,
    /// The number is lower than the newest of that sender.
    OldNumber,
    /// No waiting transaction agrees with the answer.
    NoMatch,
    /// What is handed in breaks a limit or an order.
    Limit,
    /// The address is enlisted already, or there is no place left.
    Enlisted,
    /// The partner's transaction still waits.
    StillWaits,
    /// Withdrawing finds none waiting.
    NoneWaits,
    /// The partner has had all its transactions.
    Exhausted,
}

/// The number of the ground.
impl From<Refusal> for u8 {
    ghost from_gives = { λ r n. n ≡ refusal_number r };

    fn from(refusal: Refusal) -> u8 {
        match refusal {
            Refusal::Time => 1,
            Refusal::ShortMemory => 2,
            Refusal::TooLong => 3,
            Refusal::Frame => 4,
            Refusal::NotUtf8 => 5,
            Refusal::Head(_) => 6,
            Refusal::Command(_) => 7,
            Refusal::Payload(_) => 8,
            Refusal::Direction => 9,
            Refusal::Unknown => 10,
            Refusal::OldNumber => 11,
            Refusal::NoMatch => 12,
            Refusal::Limit => 13,
            Refusal::Enlisted => 14,
            Refusal::StillWaits => 15,
            Refusal::NoneWaits => 16,
            Refusal::Exhausted => 17,
        }
    }
}

impl Refusal {
    /// The first field at fault, counted from 0, where the ground is about a field.
    pub fn field(self) -> Option<u8>
        ensures { result ≡ refusal_field self }
    {
        match self {
            Refusal::Head(field) | Refusal::Command(field) | Refusal::Payload(field) => Some(field),
            _ => None,
        }
    }
}

/// Writes `refused`, the number, and the field at fault where there is one.
impl fmt::Display for Refusal {
    ghost output = { λ r. Some (refusal_line r) };

    fn fmt<W: fmt::Write>(&self, f: &mut fmt::Formatter<W>) -> fmt::Result {
        let number = u8::from(*self);
        match self.field() {
            Some(field) => write!(f, "refused {number} {field}"),
            None => write!(f, "refused {number}"),
        }
    }
}

impl Error for Refusal {}
