//! Numbers and types. A number is spelled as the protocol spells whole numbers, and lies in the range of its type.
ghost use Rattle.std.specs.Prelude.{◌≡◌, ◌≤◌, ℕ, Some, None, Result, MatchResult, if◌then◌else◌, nat_le};
ghost use Rattle.std.specs.Option.{ok_or, option_map};
ghost use Rattle.std.specs.Result.{result_map_both, result_ok};
ghost use Rattle.std.proofs.Common.{lit≤};
ghost use Rattle.protocol.specs.Words.{kind_named};
ghost use Rattle.protocol.specs.declared.kind.Kind.TheVariants as K;
ghost use Rattle.value.specs.Values.{whole, value_read};
ghost use Rattle.field.specs.Numerals.{numeral};
ghost use Rattle.notation.specs.declared.trouble.Trouble.TheVariants.{NotUnderstood};
ghost use Rattle.arguments.specs.Converts.{converts_up_to};

use field::number::number;
use notation::trouble::Trouble;
use protocol::kind::Kind;
use std::str::from_utf8;
use value::read::read_value;
use value::value::Value;

/// A type of whole numbers without a sign.
pub trait Natural: TryFrom<u64> {
    // The greatest of them.
    ghost most: { ℕ };

    // The number that a value is.
    ghost number: { Self → ℕ };

    /// The greatest of them.
    fn greatest() -> u64
        ensures { result ≡ most };

    // It has 64 bits at most.
    ghost narrow: { most ≤ 18446744073709551615 };

    // Just the numbers up to the greatest convert.
    ghost converts: { (n : ℕ) (r : Result Self Self.Error) → Self.try_from_gives n r → option_map number (result_ok r) ≡ (if nat_le n most then Some n else None) };
}

impl Natural for u16 {
    ghost most = { 65535 };

    ghost number = { λ n. n };

    ghost narrow = { lit≤ tt };

    ghost converts = { converts_up_to 65535 };

    fn greatest() -> u64 {
        u64::from(u16::MAX)
    }
}

impl Natural for u32 {
    ghost most = { 4294967295 };

    ghost number = { λ n. n };

    ghost narrow = { lit≤ tt };

    ghost converts = { converts_up_to 4294967295 };

    fn greatest() -> u64 {
        u64::from(u32::MAX)
    }
}

impl Natural for u64 {
    ghost most = { 18446744073709551615 };

    ghost number = { λ n. n };

    ghost narrow = { lit≤ tt };

    ghost converts = { converts_up_to 18446744073709551615 };

    fn greatest() -> u64 {
        u64::MAX
    }
}

/// A number that a word spells: an index is a `u16`, an address, a partner or a setting of a catalogue a `u32`, and a time
/// a `u64`.
#[tactic(auto, using(crate::proofs::Digits::no_text, crate::proofs::Digits::narrower, crate::proofs::Digits::converted))]
pub fn read_number<T: Natural>(word: &[u8]) -> Result<T, Trouble>
where
    T::Error: Drop,
    ensures { MatchResult result (λ n. numeral T.most word.now ≡ Some (T.number n)) (λ e. (e ≡ NotUnderstood) × (numeral T.most word.now ≡ None)) }
{
    let number = number(from_utf8(word)?, T::greatest()).ok_or(Trouble::NotUnderstood)?;
    T::try_from(number).map_err(|_| Trouble::NotUnderstood)
}

/// An angle in milliarcseconds, as a value of type In. (The crate `sky` has the same match for a part of a row, where none
/// is no trouble of a line; a function of both would say no less.)
pub fn read_angle(word: &[u8]) -> Result<i32, Trouble>
    ensures { result_map_both whole (λ e. e) result ≡ ok_or (value_read K.In word.now) NotUnderstood }
{
    match read_value(Kind::In, word) {
        Some(Value::In(angle)) => Ok(angle),
        _ => Err(Trouble::NotUnderstood),
    }
}

/// A type of values.
#[tactic(auto, using(crate::proofs::Types::no_type))]
pub fn read_kind(word: &[u8]) -> Result<Kind, Trouble>
    ensures { result ≡ ok_or (kind_named word.now) NotUnderstood }
{
    Ok(from_utf8(word)?.parse()?)
}
