//! The star rows as a store. An element is found by arithmetic: index 100 + 3 × k + p is part p of row k.
ghost use Rattle.std.specs.Prelude.{◌≡◌, is_some};
ghost use Rattle.std.specs.Option.{option_map};
ghost use Rattle.store.specs.Contents.{typed, fixed, inside};
ghost use Rattle.stars.specs.Rows.{star_rows};
ghost use Rattle.std.proofs.Common.{arith};
ghost use Rattle.stars.specs.Soundness.{stars_sound};

use crate::rows::StarRows;
use protocol::code::Code;
use protocol::kind::Kind;
use store::store::Store;
use value::value::Value;

/// The index of the first star's name.
const FIRST: u16 = 100;

impl StarRows {
    /// The value of the element at the index, if there is one.
    fn element(&self, index: u16) -> Option<Value>
        ensures value { option_map (λ v. fixed (typed v)) result ≡ (star_rows self.now).element index }
        ensures there { is_some result ≡ inside (star_rows self.now) index }
    {
        if !self.covers(index) {
            return None;
        }
        let place = usize::from(index - FIRST);
        let star = &self.stars[place / 3];
        match place % 3 {
            0 => Some(Value::St(star.name())),
            1 => Some(Value::In(star.ascension())),
            _ => Some(Value::In(star.declination())),
        }
    }
}

impl Store for StarRows {
    ghost meaning = { star_rows };

    ghost sound = { λ s. stars_sound s.stars.items (omega (arith, s.stars.ok.0)) (omega (arith, s.stars.ok.0)) };

    fn limits(&self) -> (u16, u16) {
        // The cast is proved to lose nothing, as there are 20,000 stars at most.
        let count = self.stars.len() as u16;
        (FIRST, FIRST - 1 + 3 * count)
    }

    fn kind(&self, index: u16) -> Option<Kind> {
        self.element(index).map(|value| value.kind())
    }

    fn read(&self, index: u16) -> Result<Value, Code> {
        self.element(index).ok_or(Code::OutsideLimits)
    }

    fn write(&mut self, index: u16, _value: Value) -> Code {
        // Each element is fixed.
        self.element(index)
            .map_or(Code::OutsideLimits, |_| Code::WrongType)
    }
}
