//! The rules of single fields, each of which may be missing.
ghost use Rattle.std.specs.Prelude.{◌≡◌};
ghost use Rattle.std.specs.Option.{option_map};
ghost use Rattle.protocol.specs.Words.{kind_named};
ghost use Rattle.field.specs.Numerals.{numeral};
ghost use Rattle.field.specs.Parts.{part_bytes};
ghost use Rattle.packet.specs.Rules.{ruled, is_word, sized_text, code_of, value_text, Passes};

use field::number::number;
use field::part::Part;
use protocol::code::Code;
use protocol::kind::Kind;
use value::read::read_value;

/// Whether the field is this word.
pub(crate) fn is_word(field: Option<Part<'_>>, word: &str) -> bool
    ensures { result ≡ is_word word.now (option_map part_bytes field.entry) }
{
    field.is_some_and(|part| part.text == word)
}

/// The whole number up to `top` that the field spells.
pub(crate) fn number_in(field: Option<Part<'_>>, top: u16) -> Option<u16>
    ensures { result ≡ ruled (numeral top) (option_map part_bytes field.entry) }
{
    let number = number(field?.text, u64::from(top))?;
    u16::try_from(number).ok()
}

/// The field, if it has 1 to 40 bytes.
pub(crate) fn text_in<'a>(field: Option<Part<'a>>) -> Option<Part<'a>>
    ensures text { option_map part_bytes result ≡ ruled sized_text (option_map part_bytes field.entry) }
    ensures place { Passes field.entry result }
{
    field.filter(|part| (1..=40).contains(&part.text.len()))
}

/// The answer code that the field spells.
pub(crate) fn code_in(field: Option<Part<'_>>) -> Option<Code>
    ensures { result ≡ ruled code_of (option_map part_bytes field.entry) }
{
    Code::try_from(number_in(field, 3)?).ok()
}

/// The type that the field names.
pub(crate) fn kind_in(field: Option<Part<'_>>) -> Option<Kind>
    ensures { result ≡ ruled kind_named (option_map part_bytes field.entry) }
{
    field?.text.parse().ok()
}

/// The field, if it writes a value of the type.
pub(crate) fn value_in<'a>(kind: Kind, field: Option<Part<'a>>) -> Option<Part<'a>>
    ensures text { option_map part_bytes result ≡ ruled (value_text kind) (option_map part_bytes field.entry) }
    ensures place { Passes field.entry result }
{
    let part = field?;
    let _value = read_value(kind, part.text.as_bytes())?;
    Some(part)
}
