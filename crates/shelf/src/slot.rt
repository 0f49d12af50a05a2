//! Slots.
ghost use Rattle.std.specs.Prelude.{◌≡◌};
ghost use Rattle.value.specs.Meant.{kind_of, datum_of};
ghost use Rattle.value.specs.Values.{Valid};

use protocol::kind::Kind;
use value::value::Value;

/// An element with its index: its value, the type of that, and whether it is fixed.
#[derive(Clone, Copy)]
pub struct Slot {
    pub(crate) index: u16,
    // Kept beside the value: that the value is one of its type is known of a slot by the call that told this type.
    pub(crate) kind: Kind,
    pub(crate) value: Value,
    // A mark of its own: a fixed element has a value as any other.
    pub(crate) fixed: bool,
    ghost typed: { kind ≡ kind_of value },
    ghost valid: { ∥ Valid kind (datum_of value) ∥₁ },
}
