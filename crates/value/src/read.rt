//! Reading a value from a text. All whole numbers are read by one reader, each into its own type.
ghost use Rattle.std.specs.Prelude.{◌≡◌, IfSome};
ghost use Rattle.std.specs.Option.{option_map};
ghost use Rattle.protocol.specs.Held.{text_bytes};
ghost use Rattle.value.specs.Values.{truth_of, read_as, value_read, Valid};
ghost use Rattle.value.specs.Meant.{kind_of, datum_of};

use crate::value::Value;
use crate::whole::read_whole;
use decimal::decimal::Decimal;
use decimal::single::Single;
use protocol::kind::Kind;
use protocol::text::Text;

/// Reads True or False.
fn read_truth(text: &Text) -> Option<bool>
    ensures { result ≡ truth_of (text_bytes text.now) }
{
    match text.as_str() {
        "True" => Some(true),
        "False" => Some(false),
        _ => None,
    }
}

/// Reads a value of the type from a text.
fn read_text(kind: Kind, text: &Text) -> Option<Value>
    ensures value { option_map datum_of result ≡ read_as kind (text_bytes text.now) }
    ensures kind { IfSome result (λ v. kind_of v ≡ kind) }
{
    match kind {
        Kind::Bo => read_truth(text).map(Value::Bo),
        Kind::In => read_whole(text).map(Value::In),
        Kind::Sh => read_whole(text).map(Value::Sh),
        Kind::USh => read_whole(text).map(Value::USh),
        Kind::Lo => read_whole(text).map(Value::Lo),
        Kind::Si => Single::try_from(text).ok().map(Value::Si),
        Kind::Do => Decimal::try_from(text).ok().map(Value::Do),
        Kind::By => read_whole(text).map(Value::By),
        Kind::St => Some(Value::St(*text)),
    }
}

/// The value of the type that the bytes write, if they are a text and write one.
pub fn read_value(kind: Kind, text: &[u8]) -> Option<Value>
    ensures value { option_map datum_of result ≡ value_read kind text.now }
    ensures kind { IfSome result (λ v. kind_of v ≡ kind) }
    ensures again { IfSome result (λ v. Valid kind (datum_of v)) }
{
    read_text(kind, &Text::new(text)?)
}
