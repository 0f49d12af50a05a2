//! Right ascension in hours.
ghost use Rattle.std.specs.Prelude.{◌≡◌, ◌/◌, Some, unsigned_abs};
ghost use Rattle.sky.specs.Stars.{star_ascension};
ghost use Rattle.sky.specs.Coordinates.{time_of, Clock, hours_text};

use crate::star::Star;
use std::fmt;

/// A right ascension as a time: 24 hours are the full circle, so one second of time is 15 arcseconds.
#[derive(Clone, Copy, Debug, PartialEq, Eq)]
pub struct Hours {
    pub hours: u8,
    pub minutes: u8,
    pub seconds: u8,
    pub millis: u16,
}

impl Star {
    /// The right ascension in hours, cut to a millisecond of time.
    pub fn hours(&self) -> Hours
        ensures time { time_of result ≡ unsigned_abs (star_ascension self.now) / 15 }
        ensures clock { Clock result }
    {
        let time = self.ascension.unsigned_abs() / 15;
        let seconds = time / 1000;
        let minutes = seconds / 60;
        // The casts are proved to lose nothing: a `try_from` would have a fault that never comes.
        Hours {
            hours: (minutes / 60) as u8,
            minutes: (minutes % 60) as u8,
            seconds: (seconds % 60) as u8,
            millis: (time % 1000) as u16,
        }
    }
}

/// Writes it as `18h36m56.336s`.
impl fmt::Display for Hours {
    ghost output = { λ t. Some (hours_text t) };

    #[tactic(auto, using(crate::proofs::Padding::two_padded, crate::proofs::Padding::three_padded))]
    fn fmt<W: fmt::Write>(&self, f: &mut fmt::Formatter<W>) -> fmt::Result {
        let Hours {
            hours,
            minutes,
            seconds,
            millis,
        } = *self;
        write!(f, "{hours:02}h{minutes:02}m{seconds:02}.{millis:03}s")
    }
}
