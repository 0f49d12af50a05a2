//! Making a slot, and what it holds.
ghost use Rattle.std.specs.Prelude.{◌≡◌};
ghost use Rattle.value.specs.Meant.{kind_of, datum_of};
ghost use Rattle.shelf.specs.Entries.{entry_of, lies};

use crate::slot::Slot;
use value::value::Value;

impl Slot {
    /// An element with this index and this value, fixed or not.
    pub fn new(index: u16, value: Value, fixed: bool) -> Slot
        ensures { entry_of result ≡ record { index = index; element = record { kind = kind_of value; datum = datum_of value; fixed = fixed } } }
    {
        let kind = value.kind();
        Slot {
            index,
            kind,
            value,
            fixed,
        }
    }

    /// Whether the index lies between the limits.
    pub(crate) fn lies(&self, low: u16, high: u16) -> bool
        ensures { result ≡ lies low high self.now }
    {
        (low..=high).contains(&self.index)
    }
}
