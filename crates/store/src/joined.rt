//! The joined store.
ghost use Rattle.std.specs.Prelude.{◌≡◌, IfOk, if◌then◌else◌, Ok, Err};
ghost use Rattle.store.specs.Joining.{below, beside, joined};
ghost use Rattle.store.specs.Makings.{making};
ghost use Rattle.store.specs.Joins.{joined_sound};

use crate::rejected::Rejected;
use crate::store::Store;
use protocol::code::Code;
use protocol::kind::Kind;
use protocol::refusal::Refusal;
use value::value::Value;

/// A joined store: two stores as one. Their ranges do not meet and the first is the lower, which `new` asks. It runs
/// from the lowest index of the lower to the highest of the upper, with nothing in a gap between.
#[derive(Drop)]
pub struct Joined<L: Store, U: Store> {
    lower: L,
    upper: U,
}

impl<L: Store, U: Store> Joined<L, U> {
    /// The two as one. Where their ranges meet or the first is the higher, both come back.
    pub fn new(lower: L, upper: U) -> Result<Joined<L, U>, Rejected<(L, U)>>
        ensures made { making (λ j. joined (L.Store.meaning j.lower) (U.Store.meaning j.upper)) result ≡ (if below (L.Store.meaning lower) (U.Store.meaning upper) then Ok (beside (L.Store.meaning lower) (U.Store.meaning upper)) else Err (13, (lower, upper))) }
        ensures parts { IfOk result (λ j. (j.lower ≡ lower) × (j.upper ≡ upper)) }
    {
        let (_, high) = lower.limits();
        let (low, _) = upper.limits();
        if high < low {
            Ok(Joined { lower, upper })
        } else {
            Err(Rejected {
                refusal: Refusal::Limit,
                given: (lower, upper),
            })
        }
    }
}

impl<L: Store, U: Store> Store for Joined<L, U> {
    ghost meaning = { λ j. joined (L.Store.meaning j.lower) (U.Store.meaning j.upper) };

    ghost sound = { λ s. joined_sound (L.Store.meaning s.lower) (U.Store.meaning s.upper) (L.Store.sound s.lower) (U.Store.sound s.upper) };

    fn limits(&self) -> (u16, u16) {
        let (low, high) = self.lower.limits();
        let (next, last) = self.upper.limits();
        (low.min(next), high.max(last))
    }

    fn kind(&self, index: u16) -> Option<Kind> {
        if self.lower.covers(index) {
            self.lower.kind(index)
        } else {
            self.upper.kind(index)
        }
    }

    fn read(&self, index: u16) -> Result<Value, Code> {
        if self.lower.covers(index) {
            self.lower.read(index)
        } else if self.upper.covers(index) {
            self.upper.read(index)
        } else if self.covers(index) {
            Err(Code::NotFound)
        } else {
            Err(Code::OutsideLimits)
        }
    }

    fn write(&mut self, index: u16, value: Value) -> Code {
        if self.lower.covers(index) {
            self.lower.write(index, value)
        } else if self.upper.covers(index) {
            self.upper.write(index, value)
        } else if self.covers(index) {
            Code::NotFound
        } else {
            Code::OutsideLimits
        }
    }
}
