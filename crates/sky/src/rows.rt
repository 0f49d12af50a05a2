//! Reading a row of the catalogue.
ghost use Rattle.std.specs.Prelude.{◌≡◌, true, [], ◌∷◌, length, IfSome, MatchOption, ◌≢◌};
ghost use Rattle.sky.specs.Stars.{made_row, between};
ghost use Rattle.sky.specs.Rows.{parts, angle_of, read_parts, row_of};
ghost use Rattle.protocol.specs.declared.kind.Kind.TheVariants as K;
ghost use Rattle.value.specs.Values.{value_read};
ghost use Rattle.sky.specs.Rows.{number};

use crate::fault::RowFault;
use crate::making::{ASCENSIONS, Angles, DECLINATIONS};
use crate::star::Star;
use protocol::kind::Kind;
use protocol::text::Text;
use value::read::read_value;
use value::value::Value;

/// The three parts of a row, if it has just three.
fn three_parts(line: &[u8]) -> Option<(&[u8], &[u8], &[u8])>
    ensures { MatchOption result (length (parts line.now) ≢ 3) (λ p. parts line.now ≡ p.0.now ∷ p.1.now ∷ p.2.now ∷ []) }
{
    let mut parts = line.split(|byte| *byte == b',');
    let name = parts.next()?;
    let ascension = parts.next()?;
    let declination = parts.next()?;
    // Three parts only where no fourth comes: `is_none().then_some(..)` would hide which way round it is.
    match parts.next() {
        None => Some((name, ascension, declination)),
        Some(_) => None,
    }
}

/// The whole number that a part of a row writes, as a value of type In.
fn read_number(part: &[u8]) -> Option<i32>
    ensures { result ≡ number (value_read K.In part.now) }
{
    match read_value(Kind::In, part) {
        Some(Value::In(number)) => Some(number),
        _ => None,
    }
}

/// The angle that a part of a row writes, if it is one of these.
fn read_angle(part: &[u8], angles: Angles) -> Option<i32>
    ensures value { result ≡ angle_of (between angles.low angles.high) part.now }
    ensures within { IfSome result (λ n. between angles.low angles.high n ≡ true) }
{
    read_number(part).filter(|number| angles.contain(*number))
}

/// The star with a name and two angles as they are written, or the first that is none.
fn read_star(name: &[u8], ascension: &[u8], declination: &[u8]) -> Result<Star, RowFault>
    ensures { made_row result ≡ read_parts name.now ascension.now declination.now }
{
    let name = Text::new(name).ok_or(RowFault::Name)?;
    let ascension = read_angle(ascension, ASCENSIONS).ok_or(RowFault::Ascension)?;
    let declination = read_angle(declination, DECLINATIONS).ok_or(RowFault::Declination)?;
    Star::new(name, ascension, declination)
}

/// The star of a row `NAME,ASCENSION,DECLINATION`, with the angles in milliarcseconds, or what is at fault.
pub fn read_row(line: &[u8]) -> Result<Star, RowFault>
    ensures { made_row result ≡ row_of line.now }
{
    let (name, ascension, declination) = three_parts(line).ok_or(RowFault::Fields)?;
    read_star(name, ascension, declination)
}
