//! Star rows.
ghost use Rattle.std.specs.Prelude.{◌≤◌, vec_len};

use sky::star::Star;

/// Star rows: 1 to 20,000 stars as fixed elements. Row k, from 0, gives index 100 + 3 × k the name (St), and the next two
/// the right ascension and the declination (both In, in milliarcseconds). The limits are the first and the last index.
#[derive(Drop)]
pub struct StarRows {
    pub(crate) stars: Vec<Star>,
    ghost some: { 1 ≤ vec_len stars },
    ghost few: { vec_len stars ≤ 20000 },
}
