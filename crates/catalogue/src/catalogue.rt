//! Catalogues.
use crate::partner::Partner;
use crate::timing::Timing;
use crate::told::Counts;
use arrayvec::ArrayVec;
use std::marker::Model;

/// A catalogue: how long it waits, the latest time that it accepted, its partners in the order of enlisting, and its counts.
/// Clauses see it as a `Station`.
#[derive(Drop)]
pub struct Catalogue {
    pub(crate) timing: Timing,
    pub(crate) clock: u64,
    pub(crate) partners: ArrayVec<Partner, 16>,
    pub(crate) counts: Counts,
}

impl Model for Catalogue {
    ghost use Rattle.catalogue.specs.Stations.{Station};
    ghost use Rattle.catalogue.specs.Kept.{Sound};

    ghost Value = { Station };

    ghost use Rattle.catalogue.specs.Views.{station_of};

    ghost view = { station_of };

    ghost invariant = { λ c. Sound (station_of c) };
}
