//! The one spelling of a decimal.
ghost use Rattle.std.specs.Prelude.{◌≡◌, ◌+◌, ◌<◌, ◌≤◌, ◌∷◌, ◌++◌, length, pos, negsuc, ◌≤ℤ◌, decimal, unsigned_abs, IsAscii};
ghost use Rattle.arrayvec.specs.ArrayString.{array_string_len};
ghost use Rattle.protocol.specs.Held.{text_bytes};
ghost use Rattle.decimal.specs.Spelling.{spelling, power_text, placed, pointed};
ghost use Rattle.decimal.specs.Views.{normal_real};

use crate::normal::NormalReal;
use arrayvec::ArrayString;
use itoa::Buffer;
use protocol::text::Text;

/// What stands before the digits of a power of ten: its sign, and a zero where it has one digit.
fn power_sign(p: i16) -> &'static str
    ensures value { result.now ++ decimal (unsigned_abs p) ≡ power_text p }
    ensures short { length result.now ≤ 2 }
{
    match p {
        0..=9 => "+0",
        10.. => "+",
        -9..=-1 => "-0",
        _ => "-",
    }
}

/// Writes E and a power of ten.
fn put_power(text: &mut ArrayString<40>, p: i16)
    requires { array_string_len text.old + 8 ≤ 40 }
    ensures { text.new.bytes ≡ text.old.bytes ++ (69 ∷ power_text p) }
{
    let mut buffer = Buffer::new();
    text.push('E');
    text.push_str(power_sign(p));
    text.push_str(buffer.format(p.unsigned_abs()));
}

/// Writes digits with a point behind the first `whole` of them, and with none where no digit follows.
fn put_pointed(text: &mut ArrayString<40>, digits: &str, whole: usize)
    requires ascii { IsAscii digits.now }
    requires room { array_string_len text.old + length digits.now < 40 }
    ensures { text.new.bytes ≡ text.old.bytes ++ pointed whole digits.now }
{
    if digits.len() <= whole {
        text.push_str(digits);
        return;
    }
    let (front, fraction) = digits.split_at(whole);
    text.push_str(front);
    text.push('.');
    text.push_str(fraction);
}

/// As many zeros as a spelling has in a row.
const ZEROS: &str = "000000000";

/// Writes digits, the first of which stands at the power `p` of ten.
fn place(text: &mut ArrayString<40>, digits: &str, p: i16)
    requires some { 0 < length digits.now }
    requires few { length digits.now ≤ 18 }
    requires ascii { IsAscii digits.now }
    requires room { array_string_len text.old ≤ 1 }
    ensures { text.new.bytes ≡ text.old.bytes ++ placed p digits.now }
{
    let size = usize::from(p.unsigned_abs());
    match p {
        -4..=-1 => {
            text.push_str("0.");
            text.push_str(&ZEROS[..size - 1]);
            text.push_str(digits);
        }
        0..=9 if digits.len() <= size => {
            text.push_str(digits);
            text.push_str(&ZEROS[..size + 1 - digits.len()]);
        }
        0..=9 => put_pointed(text, digits, size + 1),
        _ => {
            put_pointed(text, digits, 1);
            put_power(text, p);
        }
    }
}

/// The one spelling of a decimal.
pub(crate) fn spell(d: NormalReal) -> Text
    requires { (negsuc 399 ≤ℤ d.real.exponent) × (d.real.exponent ≤ℤ pos 400) }
    ensures { text_bytes result ≡ spelling (normal_real d) }
{
    let mut text = ArrayString::<40>::new();
    if d.real.negative {
        text.push('-');
    }
    let mut buffer = Buffer::new();
    let digits = buffer.format(d.real.digits);
    // `as`, since no `From` goes from a length to an i16; it is proved to lose nothing.
    let places = (digits.len() - 1) as i16;
    place(&mut text, digits, d.real.exponent + places);
    Text::new(text.as_str().as_bytes()).unwrap()
}
