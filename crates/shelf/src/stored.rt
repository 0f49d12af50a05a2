//! The shelf as a store.
ghost use Rattle.std.specs.Prelude.{◌≡◌, None, MatchOption};
ghost use Rattle.std.specs.Option.{option_map};
ghost use Rattle.shelf.specs.Entries.{element_of, lookup};
ghost use Rattle.shelf.specs.Places.{Place};
ghost use Rattle.shelf.specs.Shelves.{entries, shelf};
ghost use Rattle.shelf.specs.Rows.{row_sound};

use crate::shelf::Shelf;
use crate::slot::Slot;
use protocol::code::Code;
use protocol::kind::Kind;
use store::store::Store;
use value::value::Value;

impl Shelf {
    /// The place of the slot with this index, counted from 0.
    fn place(&self, index: u16) -> Option<usize>
        ensures { MatchOption result (lookup (entries self.now) index ≡ None) (λ k. Place self.now.slots.items index k) }
    {
        self.slots
            .binary_search_by_key(&index, |slot| slot.index)
            .ok()
    }

    /// The slot with this index.
    fn slot(&self, index: u16) -> Option<&Slot>
        ensures { option_map (λ s. element_of s.now) result ≡ lookup (entries self.now) index }
    {
        let place = self.place(index)?;
        Some(&self.slots[place])
    }
}

impl Store for Shelf {
    ghost meaning = { shelf };

    ghost sound = { λ s. row_sound s.low s.high s.slots.items s.narrow s.rule };

    fn limits(&self) -> (u16, u16) {
        (self.low, self.high)
    }

    fn kind(&self, index: u16) -> Option<Kind> {
        self.slot(index).map(|slot| slot.kind)
    }

    fn read(&self, index: u16) -> Result<Value, Code> {
        if !self.covers(index) {
            return Err(Code::OutsideLimits);
        }
        self.slot(index)
            .map(|slot| slot.value)
            .ok_or(Code::NotFound)
    }

    fn write(&mut self, index: u16, value: Value) -> Code {
        if !self.covers(index) {
            return Code::OutsideLimits;
        }
        // No `?` here: the answer is a code.
        let Some(place) = self.place(index) else {
            return Code::NotFound;
        };
        let slot = Slot::new(index, value, false);
        let held = &self.slots[place];
        if held.fixed || held.kind != slot.kind {
            return Code::WrongType;
        }
        self.slots[place] = slot;
        Code::Done
    }
}
