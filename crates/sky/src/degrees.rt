//! Declination in degrees.
ghost use Rattle.std.specs.Prelude.{◌≡◌, ◌/◌, pos, Some, int_lt, unsigned_abs};
ghost use Rattle.sky.specs.Stars.{star_declination};
ghost use Rattle.sky.specs.Coordinates.{arc_of, Arc, degrees_text};

use crate::star::Star;
use std::fmt;

/// A declination: a sign, and its size in degrees, minutes and seconds of arc.
#[derive(Clone, Copy, Debug, PartialEq, Eq)]
pub struct Degrees {
    // A sign of its own: within a degree of the equator the degrees are 0 on both sides.
    pub negative: bool,
    pub degrees: u8,
    pub minutes: u8,
    pub seconds: u8,
    pub hundredths: u8,
}

impl Star {
    /// The declination in degrees, its size cut to a hundredth of an arcsecond.
    pub fn degrees(&self) -> Degrees
        ensures sign { result.negative ≡ int_lt (star_declination self.now) (pos 0) }
        ensures size { arc_of result ≡ unsigned_abs (star_declination self.now) / 10 }
        ensures arc { Arc result }
    {
        let size = self.declination.unsigned_abs() / 10;
        let seconds = size / 100;
        let minutes = seconds / 60;
        // The casts are proved to lose nothing: a `try_from` would have a fault that never comes.
        Degrees {
            negative: self.declination < 0,
            degrees: (minutes / 60) as u8,
            minutes: (minutes % 60) as u8,
            seconds: (seconds % 60) as u8,
            hundredths: (size % 100) as u8,
        }
    }
}

/// Writes it as `+38°47'01.28"`.
impl fmt::Display for Degrees {
    ghost output = { λ a. Some (degrees_text a) };

    #[tactic(auto, using(crate::proofs::Padding::two_padded))]
    fn fmt<W: fmt::Write>(&self, f: &mut fmt::Formatter<W>) -> fmt::Result {
        let sign = if self.negative { "-" } else { "+" };
        let Degrees {
            degrees,
            minutes,
            seconds,
            hundredths,
            ..
        } = *self;
        write!(
            f,
            "{sign}{degrees:02}°{minutes:02}'{seconds:02}.{hundredths:02}\""
        )
    }
}
