//! Making star rows.
ghost use Rattle.std.specs.Prelude.{◌≡◌, map, IfOk, if◌then◌else◌, Ok, Err, vec_len};
ghost use Rattle.sky.specs.Stars.{row};
ghost use Rattle.store.specs.Makings.{making};
ghost use Rattle.stars.specs.Facts.{counted, stars_of, Placed};
ghost use Rattle.stars.specs.Rows.{star_rows};

use crate::rows::StarRows;
use protocol::refusal::Refusal;
use sky::star::Star;
use store::rejected::Rejected;

impl StarRows {
    /// The star rows of these stars, in this order. Unless there are 1 to 20,000 of them they come back.
    pub fn new(stars: Vec<Star>) -> Result<StarRows, Rejected<Vec<Star>>>
        ensures made { making star_rows result ≡ (if counted (vec_len stars) then Ok (stars_of (map row stars.items)) else Err (13, stars)) }
        ensures placed { IfOk result (λ s. Placed (map row stars.items) (star_rows s)) }
    {
        if !(1..=20_000).contains(&stars.len()) {
            return Err(Rejected {
                refusal: Refusal::Limit,
                given: stars,
            });
        }
        Ok(StarRows { stars })
    }
}
