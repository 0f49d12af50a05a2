//! Reading and spelling exact decimals.
ghost use Rattle.std.specs.Prelude.{◌≡◌, Some};
ghost use Rattle.std.specs.Option.{option_map};
ghost use Rattle.std.specs.Result.{result_ok};
ghost use Rattle.protocol.specs.Held.{text_bytes};
ghost use Rattle.decimal.specs.Range.{within_of};
ghost use Rattle.decimal.specs.Spelling.{spelling};
ghost use Rattle.decimal.specs.Views.{real_of};

use crate::range::is_within;
use crate::ranged::Ranged;
use crate::reach::Reach;
use crate::scan::read_real;
use crate::spell::spell;
use protocol::text::Text;
use protocol::unknown::Unknown;
use std::marker::PhantomData;

/// The decimal that a text writes, if it writes one in the reach.
impl<R: Reach> TryFrom<&Text> for Ranged<R> {
    type Error = Unknown;

    ghost try_from_gives = { λ text r.
        option_map real_of (result_ok r) ≡ within_of R.LEAST R.MOST (text_bytes text.now) };

    fn try_from(text: &Text) -> Result<Ranged<R>, Unknown> {
        let real = read_real(text).ok_or(Unknown)?;
        if !is_within::<R>(real) {
            return Err(Unknown);
        }
        Ok(Ranged {
            real,
            reach: PhantomData,
        })
    }
}

impl<R: Reach> Ranged<R> {
    /// The one spelling, which reads back as the same decimal.
    pub fn spelling(&self) -> Text
        ensures bytes { text_bytes result ≡ spelling (real_of self.now) }
        ensures back { within_of R.LEAST R.MOST (text_bytes result) ≡ Some (real_of self.now) }
    {
        spell(self.real)
    }
}
