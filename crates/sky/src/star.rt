//! Stars.
ghost use Rattle.std.specs.Prelude.{◌≤◌, pos, negsuc, ◌≤ℤ◌};

use protocol::text::Text;

/// A star of the catalogue: its name, and its place in milliarcseconds. The right ascension runs from 0 to one
/// short of the full circle, the declination from the south pole to the north pole.
#[derive(Clone, Copy)]
pub struct Star {
    pub(crate) name: Text,
    pub(crate) ascension: i32,
    pub(crate) declination: i32,
    ghost turn: { (pos 0 ≤ℤ ascension) × (ascension ≤ℤ pos 1295999999) },
    ghost tilt: { (negsuc 323999999 ≤ℤ declination) × (declination ≤ℤ pos 324000000) },
}
