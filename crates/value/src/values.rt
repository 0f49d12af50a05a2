//! The type of a value, and its one spelling.
ghost use Rattle.std.specs.Prelude.{◌≡◌, true, Some};
ghost use Rattle.std.specs.Option.{option_map};
ghost use Rattle.protocol.specs.Held.{text_bytes};
ghost use Rattle.protocol.specs.Texts.{textual};
ghost use Rattle.value.specs.Values.{value_read, spelled, Valid};
ghost use Rattle.value.specs.Meant.{kind_of, datum_of};

use crate::text::text_of;
use crate::value::Value;
use crate::whole::spell_whole;
use protocol::kind::Kind;
use protocol::text::Text;

impl Value {
    /// The type of the value.
    pub fn kind(self) -> Kind
        ensures value { result ≡ kind_of self }
        ensures valid { Valid (kind_of self) (datum_of self) }
    {
        match self {
            Value::Bo(_) => Kind::Bo,
            Value::In(_) => Kind::In,
            Value::Sh(_) => Kind::Sh,
            Value::USh(_) => Kind::USh,
            Value::Lo(_) => Kind::Lo,
            Value::Si(_) => Kind::Si,
            Value::Do(_) => Kind::Do,
            Value::By(_) => Kind::By,
            Value::St(_) => Kind::St,
        }
    }

    /// The one spelling of the value.
    pub fn spelling(&self) -> Text
        ensures bytes { text_bytes result ≡ spelled (datum_of self.now) }
        ensures back { value_read (kind_of self.now) (text_bytes result) ≡ Some (datum_of self.now) }
        ensures plain { textual (text_bytes result) ≡ true }
        ensures once { option_map spelled (value_read (kind_of self.now) (text_bytes result)) ≡ Some (text_bytes result) }
    {
        match *self {
            Value::Bo(true) => text_of("True"),
            Value::Bo(false) => text_of("False"),
            Value::In(n) => spell_whole(i64::from(n)),
            Value::Sh(n) => spell_whole(i64::from(n)),
            Value::USh(n) => spell_whole(i64::from(n)),
            Value::Lo(n) => spell_whole(i64::from(n)),
            Value::Si(single) => single.spelling(),
            Value::Do(decimal) => decimal.spelling(),
            Value::By(n) => spell_whole(i64::from(n)),
            Value::St(text) => text,
        }
    }
}
