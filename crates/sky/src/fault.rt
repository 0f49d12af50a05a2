//! What can be wrong with a row of a star catalogue.
ghost use Rattle.std.specs.Prelude.{Some};
ghost use Rattle.sky.specs.Faults.{fault_text};

use std::error::Error;
use std::fmt;

/// Why a row is no star. Where several faults are there, the first in this order is told.
#[derive(Clone, Copy, Debug, PartialEq, Eq)]
pub enum RowFault {
    /// The row does not have three parts.
    Fields,
    /// The name is no text of 1 to 40 bytes of UTF-8 without `{`, `}` and `:`.
    Name,
    /// The right ascension is no whole number from 0 to 1295999999.
    Ascension,
    /// The declination is no whole number from -324000000 to 324000000.
    Declination,
}

/// Writes what is wrong, in words.
impl fmt::Display for RowFault {
    ghost output = { λ fault. Some (fault_text fault) };

    fn fmt<W: fmt::Write>(&self, f: &mut fmt::Formatter<W>) -> fmt::Result {
        f.write_str(match self {
            RowFault::Fields => "the row is not NAME,ASCENSION,DECLINATION",
            RowFault::Name => "the name is not 1 to 40 bytes of UTF-8 without { } :",
            RowFault::Ascension => "the right ascension is no whole number from 0 to 1295999999",
            RowFault::Declination =>
                "the declination is no whole number from -324000000 to 324000000",
        })
    }
}

impl Error for RowFault {}
