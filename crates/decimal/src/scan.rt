//! Scanning a text for a real.
ghost use Rattle.std.specs.Prelude.{◌≡◌, ◌+◌, ◌≤◌, length, take, drop, pos, negsuc, ◌≤ℤ◌, IfSome, Some};
ghost use Rattle.std.specs.Option.{option_map};
ghost use Rattle.protocol.specs.Held.{text_bytes};
ghost use Rattle.decimal.specs.Gather.{amount};
ghost use Rattle.decimal.specs.Reading.{run_of, power_digits, power_read, normal, at_power, at_point, unsigned_of, decimal_of};
ghost use Rattle.decimal.specs.Views.{normal_real};

use crate::coefficient::Coefficient;
use crate::digits::Digits;
use crate::normal::NormalReal;
use crate::real::Real;
use protocol::text::Text;
use std::str::from_utf8;

impl<'a> Digits<'a> {
    /// The digits that the text begins with, and what stands behind them.
    fn split(text: &'a [u8]) -> (Digits<'a>, &'a [u8])
        ensures digits { result.0.bytes.now ≡ take (run_of text.now) text.now }
        ensures rest { result.1.now ≡ drop (run_of text.now) text.now }
    {
        let count = text.iter().take_while(|b| b.is_ascii_digit()).count();
        let (bytes, rest) = text.split_at(count);
        (Digits { bytes }, rest)
    }

    /// The digits as characters.
    fn as_str(self) -> &'a str
        ensures { result.now ≡ self.entry.bytes.now }
    {
        from_utf8(self.bytes).unwrap()
    }
}

/// A size of a power of ten: one to three digits.
fn power_digits(text: &[u8]) -> Option<i16>
    ensures value { result ≡ option_map (λ n. pos n) (power_digits text.now) }
    ensures bound { IfSome result (λ z. (pos 0 ≤ℤ z) × (z ≤ℤ pos 999)) }
{
    let (digits, rest) = Digits::split(text);
    if !rest.is_empty() || text.len() > 3 {
        return None;
    }
    digits.as_str().parse::<i16>().ok()
}

/// What stands behind the digits: nothing, or E and a power of ten.
fn read_power(rest: &[u8]) -> Option<i16>
    ensures value { result ≡ power_read rest.now }
    ensures bound { IfSome result (λ z. (negsuc 998 ≤ℤ z) × (z ≤ℤ pos 999)) }
{
    match rest {
        [] => Some(0),
        [b'E', b'-', digits @ ..] => Some(-power_digits(digits)?),
        [b'E', b'+', digits @ ..] | [b'E', digits @ ..] => power_digits(digits),
        _ => None,
    }
}

/// A coefficient times a power of ten, in the normal form.
fn settle(negative: bool, c: Coefficient, power: i16) -> NormalReal
    requires room { c.zeros ≤ 40 }
    requires bounds { (negsuc 1038 ≤ℤ power) × (power ≤ℤ pos 999) }
    ensures { normal negative (amount c) power ≡ Some (normal_real result) }
{
    let real = if c.digits == 0 {
        Real {
            negative: false,
            digits: 0,
            exponent: 0,
        }
    } else {
        Real {
            negative,
            digits: c.digits,
            exponent: power + i16::from(c.zeros),
        }
    };
    NormalReal { real }
}

/// The real of the digits in front of and behind the point, and of the power that follows them.
fn put_together(
    negative: bool,
    whole: Digits<'_>,
    fraction: Digits<'_>,
    rest: &[u8],
) -> Option<NormalReal>
    requires { length whole.bytes.now + length fraction.bytes.now ≤ 40 }
    ensures { option_map normal_real result
        ≡ at_power negative whole.entry.bytes.now fraction.entry.bytes.now (power_read rest.now) }
{
    let power = read_power(rest)?;
    let nothing = Coefficient {
        digits: 0,
        zeros: 0,
    };
    let all = nothing.append(whole)?.append(fraction)?;
    // `as`, since no `From` goes from a length to an i16; it is proved to lose nothing.
    Some(settle(negative, all, power - fraction.bytes.len() as i16))
}

/// The same, with the text behind the point.
fn read_behind(negative: bool, whole: Digits<'_>, behind: &[u8]) -> Option<NormalReal>
    requires { length whole.bytes.now + length behind.now ≤ 40 }
    ensures { option_map normal_real result ≡ at_point negative whole.entry.bytes.now behind.now }
{
    let (fraction, rest) = Digits::split(behind);
    if fraction.bytes.is_empty() {
        return None;
    }
    put_together(negative, whole, fraction, rest)
}

/// The real that the text behind a sign writes.
fn read_unsigned(negative: bool, text: &[u8]) -> Option<NormalReal>
    requires { length text.now ≤ 40 }
    ensures { option_map normal_real result ≡ unsigned_of negative text.now }
{
    let (whole, rest) = Digits::split(text);
    if whole.bytes.is_empty() {
        return None;
    }
    match rest {
        [b'.', behind @ ..] => read_behind(negative, whole, behind),
        _ => put_together(negative, whole, Digits { bytes: &[] }, rest),
    }
}

/// The real that a text writes.
pub(crate) fn read_real(text: &Text) -> Option<NormalReal>
    ensures { option_map normal_real result ≡ decimal_of (text_bytes text.now) }
{
    match text.as_bytes() {
        [b'-', digits @ ..] => read_unsigned(true, digits),
        digits => read_unsigned(false, digits),
    }
}
