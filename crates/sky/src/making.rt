//! Making a star, and what it holds.
ghost use Rattle.std.specs.Prelude.{◌≡◌};
ghost use Rattle.protocol.specs.Held.{text_bytes};
ghost use Rattle.sky.specs.Stars.{star_name, star_ascension, star_declination, made_row, between, star_of};

use crate::fault::RowFault;
use crate::star::Star;
use protocol::text::Text;

/// The angles from one end to the other, in milliarcseconds. (A `RangeInclusive` has its ends behind calls, and no constant
/// of one can be made here.)
#[derive(Clone, Copy)]
pub(crate) struct Angles {
    low: i32,
    high: i32,
}

/// The right ascensions: from 0 to one short of the full circle.
pub(crate) const ASCENSIONS: Angles = Angles {
    low: 0,
    high: 1_295_999_999,
};

/// The declinations: from the south pole to the north pole.
pub(crate) const DECLINATIONS: Angles = Angles {
    low: -324_000_000,
    high: 324_000_000,
};

impl Angles {
    /// Whether a number is one of them.
    pub(crate) fn contain(self, number: i32) -> bool
        ensures { result ≡ between self.low self.high number }
    {
        (self.low..=self.high).contains(&number)
    }
}

impl Star {
    /// The star with this name at this place, or the first of the two angles that is out of its range.
    pub fn new(name: Text, ascension: i32, declination: i32) -> Result<Star, RowFault>
        ensures { made_row result ≡ star_of (text_bytes name) ascension declination }
    {
        if !ASCENSIONS.contain(ascension) {
            return Err(RowFault::Ascension);
        }
        if !DECLINATIONS.contain(declination) {
            return Err(RowFault::Declination);
        }
        Ok(Star {
            name,
            ascension,
            declination,
        })
    }

    /// The name.
    pub fn name(&self) -> Text
        ensures { text_bytes result ≡ star_name self.now }
    {
        self.name
    }

    /// The right ascension in milliarcseconds.
    pub fn ascension(&self) -> i32
        ensures { result ≡ star_ascension self.now }
    {
        self.ascension
    }

    /// The declination in milliarcseconds.
    pub fn declination(&self) -> i32
        ensures { result ≡ star_declination self.now }
    {
        self.declination
    }
}
