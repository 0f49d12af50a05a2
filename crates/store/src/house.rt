//! The house record.
ghost use Rattle.std.specs.Prelude.{◌≡◌};
ghost use Rattle.protocol.specs.Held.{text_bytes};
ghost use Rattle.std.specs.Option.{option_map};
ghost use Rattle.store.specs.Contents.{typed, fixed};
ghost use Rattle.store.specs.House.{house_of, house};
ghost use Rattle.store.specs.Houses.{house_sound};

use crate::store::Store;
use protocol::code::Code;
use protocol::kind::Kind;
use protocol::text::Text;
use value::value::Value;

/// The house record: what a box tells of itself. Between the limits 0 and 99 it has four fixed elements: 0 is Ping
/// (By, always 0), 1 the serial, 2 the identifier (both St), and 3 the security mode (By, always 0).
#[derive(Clone, Copy)]
pub struct HouseRecord {
    serial: Text,
    identifier: Text,
}

impl HouseRecord {
    /// The house record with this serial and this identifier.
    pub fn new(serial: Text, identifier: Text) -> HouseRecord
        ensures { house result ≡ house_of (text_bytes serial) (text_bytes identifier) }
    {
        HouseRecord { serial, identifier }
    }

    /// The value of the element at the index, if there is one.
    fn element(&self, index: u16) -> Option<Value>
        ensures { option_map (λ v. fixed (typed v)) result ≡ (house self.now).element index }
    {
        match index {
            0 | 3 => Some(Value::By(0)),
            1 => Some(Value::St(self.serial)),
            2 => Some(Value::St(self.identifier)),
            _ => None,
        }
    }
}

impl Store for HouseRecord {
    ghost meaning = { house };

    ghost sound = { λ s. house_sound (text_bytes s.serial) (text_bytes s.identifier) s.serial.plain s.identifier.plain };

    fn limits(&self) -> (u16, u16) {
        (0, 99)
    }

    fn kind(&self, index: u16) -> Option<Kind> {
        self.element(index).map(Value::kind)
    }

    fn read(&self, index: u16) -> Result<Value, Code> {
        if !self.covers(index) {
            return Err(Code::OutsideLimits);
        }
        self.element(index).ok_or(Code::NotFound)
    }

    fn write(&mut self, index: u16, _value: Value) -> Code {
        // Whatever can be read is fixed.
        self.read(index).err().unwrap_or(Code::WrongType)
    }
}
