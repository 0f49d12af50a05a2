//! Which stores there are.
use shelf::shelf::Shelf;
use stars::rows::StarRows;
use store::house::HouseRecord;
use store::joined::Joined;

/// One of the stores that boxes are made over.
#[derive(Drop)]
pub enum AnyStore {
    /// A house record and a shelf.
    Mount(Joined<HouseRecord, Shelf>),
    /// A house record and star rows.
    Library(Joined<HouseRecord, StarRows>),
    /// A house record, star rows, and a shelf on top.
    Dome(Joined<HouseRecord, Joined<StarRows, Shelf>>),
    /// A shelf alone.
    Bare(Shelf),
}
