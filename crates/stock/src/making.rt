//! Making a store, or the refusal.
ghost use Rattle.std.specs.Prelude.{◌≡◌, map, Ok};
ghost use Rattle.sky.specs.Stars.{row};
ghost use Rattle.shelf.specs.Entries.{entry_of};
ghost use Rattle.store.specs.House.{house};
ghost use Rattle.store.specs.Joining.{joined};
ghost use Rattle.stock.specs.Made.{told, housed, shelves, side_by_side, mount_of, library_of, dome_of};
ghost use Rattle.stock.specs.Stores.{contents};

use crate::any::AnyStore;
use protocol::refusal::Refusal;
use protocol::text::Text;
use shelf::shelf::Shelf;
use shelf::slot::Slot;
use sky::star::Star;
use stars::rows::StarRows;
use store::house::HouseRecord;
use store::joined::Joined;
use store::store::Store;

/// The house record with this serial and this identifier, if both are texts.
fn house_record(serial: &[u8], identifier: &[u8]) -> Result<HouseRecord, Refusal>
    ensures { told house result ≡ housed serial.now identifier.now }
{
    let serial = Text::new(serial).ok_or(Refusal::Limit)?;
    let identifier = Text::new(identifier).ok_or(Refusal::Limit)?;
    Ok(HouseRecord::new(serial, identifier))
}

/// The store on top of a house record with this serial and this identifier.
fn with_house<U: Store + Drop>(
    serial: &[u8],
    identifier: &[u8],
    upper: U,
) -> Result<Joined<HouseRecord, U>, Refusal>
    ensures { told (λ j. joined (house j.lower) (U.Store.meaning j.upper)) result ≡ side_by_side (housed serial.now identifier.now) (Ok (U.Store.meaning upper)) }
{
    let house = house_record(serial, identifier)?;
    Ok(Joined::new(house, upper)?)
}

// A maker takes what a call of the console names, one by one and in that order: two texts, two limits, and the items.
impl AnyStore {
    /// A house record with this serial and this identifier, joined with a shelf of these slots.
    pub fn mount(
        serial: &[u8],
        identifier: &[u8],
        low: u16,
        high: u16,
        slots: Vec<Slot>,
    ) -> Result<AnyStore, Refusal>
        ensures { told contents result ≡ mount_of serial.now identifier.now low high (map entry_of slots.items) }
    {
        let shelf = Shelf::new(low, high, slots)?;
        Ok(AnyStore::Mount(with_house(serial, identifier, shelf)?))
    }

    /// A house record with this serial and this identifier, joined with the star rows of these stars.
    pub fn library(serial: &[u8], identifier: &[u8], stars: Vec<Star>) -> Result<AnyStore, Refusal>
        ensures { told contents result ≡ library_of serial.now identifier.now (map row stars.items) }
    {
        let rows = StarRows::new(stars)?;
        Ok(AnyStore::Library(with_house(serial, identifier, rows)?))
    }

    /// A house record with this serial and this identifier, joined with the star rows of these stars, and with a shelf of
    /// these slots on top.
    pub fn dome(
        serial: &[u8],
        identifier: &[u8],
        stars: Vec<Star>,
        low: u16,
        high: u16,
        slots: Vec<Slot>,
    ) -> Result<AnyStore, Refusal>
        ensures { told contents result ≡ dome_of serial.now identifier.now (map row stars.items) low high (map entry_of slots.items) }
    {
        let rows = StarRows::new(stars)?;
        let top = Shelf::new(low, high, slots)?;
        let both = Joined::new(rows, top)?;
        Ok(AnyStore::Dome(with_house(serial, identifier, both)?))
    }

    /// A shelf of these slots alone.
    pub fn bare(low: u16, high: u16, slots: Vec<Slot>) -> Result<AnyStore, Refusal>
        ensures { told contents result ≡ shelves low high (map entry_of slots.items) }
    {
        Ok(AnyStore::Bare(Shelf::new(low, high, slots)?))
    }
}
