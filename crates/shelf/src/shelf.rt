//! Shelves.
ghost use Rattle.std.specs.Prelude.{◌≡◌, ◌^◌, ◌<◌, true, map};
ghost use Rattle.shelf.specs.Entries.{entry_of, shelved};

use crate::slot::Slot;

/// A shelf: 1 to 256 elements, fixed or not, in strictly ascending order of index, between two limits that are given at
/// its making.
#[derive(Drop)]
pub struct Shelf {
    pub(crate) low: u16,
    pub(crate) high: u16,
    pub(crate) slots: Vec<Slot>,
    ghost narrow: { high < 2 ^ 16 },
    ghost rule: { shelved low high (map entry_of slots.items) ≡ true },
}
