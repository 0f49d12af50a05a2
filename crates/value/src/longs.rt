//! The ends of the long whole numbers, and the number that one is.
ghost use Rattle.std.specs.Prelude.{◌≡◌};
ghost use Rattle.std.specs.Option.{option_map};
ghost use Rattle.std.specs.Result.{result_ok};
ghost use Rattle.value.specs.Whole.{between, long_least, long_most};
ghost use Rattle.value.specs.Meant.{number_of};

use crate::long::Long;
use protocol::unknown::Unknown;

impl Long {
    /// The least of them.
    pub const LEAST: i64 = -922337236854775808;

    /// The greatest of them.
    pub const MOST: i64 = 922337236854775807;
}

/// The number that a long whole number is.
impl From<Long> for i64 {
    ghost from_gives = { λ l n. n ≡ number_of l };

    fn from(long: Long) -> i64 {
        long.number
    }
}

/// The long whole number that a number is, if it lies between their ends.
impl TryFrom<i64> for Long {
    type Error = Unknown;

    ghost try_from_gives = { λ n r. option_map number_of (result_ok r) ≡ between long_least long_most n };

    fn try_from(number: i64) -> Result<Long, Unknown> {
        if (Long::LEAST..=Long::MOST).contains(&number) {
            Ok(Long { number })
        } else {
            Err(Unknown)
        }
    }
}
