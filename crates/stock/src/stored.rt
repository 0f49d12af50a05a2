//! Any of them as a store.
ghost use Rattle.std.specs.Prelude.{◌≡◌};
ghost use Rattle.stock.specs.Stores.{contents};
ghost use Rattle.shelf.specs.Shelves;
ghost use Rattle.stars.specs.Rows.{star_rows};
ghost use Rattle.store.specs.Joins.{joined_sound};
ghost use Rattle.store.specs.House;
ghost use Rattle.store.specs.Joining;
ghost use Rattle.stock.specs.Parts.{sound_house, sound_shelf, sound_rows};
ghost use Rattle.stock.specs.declared.any.AnyStore.TheVariants as A;

use crate::any::AnyStore;
use protocol::code::Code;
use protocol::kind::Kind;
use store::store::Store;
use value::value::Value;

// Four matches, one for each call: behind a `dyn Store` no maker may hand a store out, and no closure takes stores of
// four types.
impl Store for AnyStore {
    ghost meaning = { contents };

    ghost sound = { elim [
      | A.Mount j ↦ joined_sound (House.house j.lower) (Shelves.shelf j.upper) (sound_house j.lower) (sound_shelf j.upper)
      | A.Library j ↦ joined_sound (House.house j.lower) (star_rows j.upper) (sound_house j.lower) (sound_rows j.upper)
      | A.Dome j ↦
          let rows = star_rows j.upper.lower in
          let top = Shelves.shelf j.upper.upper in
          joined_sound (House.house j.lower) (Joining.joined rows top) (sound_house j.lower) (joined_sound rows top (sound_rows j.upper.lower) (sound_shelf j.upper.upper))
      | A.Bare s ↦ sound_shelf s
    ] };

    fn limits(&self) -> (u16, u16) {
        match self {
            AnyStore::Mount(store) => store.limits(),
            AnyStore::Library(store) => store.limits(),
            AnyStore::Dome(store) => store.limits(),
            AnyStore::Bare(store) => store.limits(),
        }
    }

    fn kind(&self, index: u16) -> Option<Kind> {
        match self {
            AnyStore::Mount(store) => store.kind(index),
            AnyStore::Library(store) => store.kind(index),
            AnyStore::Dome(store) => store.kind(index),
            AnyStore::Bare(store) => store.kind(index),
        }
    }

    fn read(&self, index: u16) -> Result<Value, Code> {
        match self {
            AnyStore::Mount(store) => store.read(index),
            AnyStore::Library(store) => store.read(index),
            AnyStore::Dome(store) => store.read(index),
            AnyStore::Bare(store) => store.read(index),
        }
    }

    fn write(&mut self, index: u16, value: Value) -> Code {
        match self {
            AnyStore::Mount(store) => store.write(index, value),
            AnyStore::Library(store) => store.write(index, value),
            AnyStore::Dome(store) => store.write(index, value),
            AnyStore::Bare(store) => store.write(index, value),
        }
    }
}
