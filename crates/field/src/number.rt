//! Whole numbers without a sign.
ghost use Rattle.std.specs.Prelude.{◌≡◌, ◌≤◌, IfSome};
ghost use Rattle.field.specs.Numerals.{numeral};

/// The whole number that the text spells, if it is at most `top`.
pub fn number(text: &str, top: u64) -> Option<u64>
    ensures value { result ≡ numeral top text.now }
    ensures bound { IfSome result (λ n. n ≤ top) }
{
    match text.as_bytes() {
        [b'+', ..] | [b'0', _, ..] => None,
        _ => text.parse().ok().filter(|n| *n <= top),
    }
}
