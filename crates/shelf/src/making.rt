//! Making a shelf.
ghost use Rattle.std.specs.Prelude.{◌≡◌, map, if◌then◌else◌, Ok, Err};
ghost use Rattle.store.specs.Makings.{making};
ghost use Rattle.shelf.specs.Entries.{entry_of, ascending, shelved, shelf_of};
ghost use Rattle.shelf.specs.Shelves.{shelf};

use crate::shelf::Shelf;
use crate::slot::Slot;
use protocol::refusal::Refusal;
use store::rejected::Rejected;

/// Whether the indices ascend strictly, between the limits.
fn ascends(low: u16, high: u16, slots: &[Slot]) -> bool
    ensures { result ≡ ascending low high (map entry_of slots.now) }
{
    slots.iter().all(|slot| slot.lies(low, high))
        && slots.is_sorted_by(|slot, next| slot.index < next.index)
}

/// Whether a shelf can hold these.
fn is_shelved(low: u16, high: u16, slots: &[Slot]) -> bool
    ensures { result ≡ shelved low high (map entry_of slots.now) }
{
    low <= high && (1..=256).contains(&slots.len()) && ascends(low, high, slots)
}

// The limits are two numbers and no range: a first one above the second is turned down, and is not empty.
impl Shelf {
    /// A shelf of these between the two limits. Unless there are 1 to 256 of them, in strictly ascending order of index
    /// between the limits, they come back.
    pub fn new(low: u16, high: u16, slots: Vec<Slot>) -> Result<Shelf, Rejected<Vec<Slot>>>
        ensures { making shelf result ≡ (if shelved low high (map entry_of slots.items) then Ok (shelf_of low high (map entry_of slots.items)) else Err (13, slots)) }
    {
        if !is_shelved(low, high, &slots) {
            return Err(Rejected {
                refusal: Refusal::Limit,
                given: slots,
            });
        }
        Ok(Shelf { low, high, slots })
    }
}
