//! The types of values.
ghost use Rattle.std.specs.Prelude.{◌≡◌, Some};
ghost use Rattle.std.specs.Result.{result_ok};
ghost use Rattle.protocol.specs.Words.{kind_word, kind_named, kind_number};

use crate::unknown::Unknown;
use std::fmt;
use std::str::FromStr;

/// The type of a value. Nil, which stands for no value in a packet's answer, is none of them.
#[derive(Clone, Copy, Debug, PartialEq, Eq)]
pub enum Kind {
    /// True or False.
    Bo,
    /// A whole number of 32 bits.
    In,
    /// A whole number of 16 bits.
    Sh,
    /// A whole number of 16 bits without a sign.
    USh,
    /// A long whole number.
    Lo,
    /// An exact decimal in the range of single precision.
    Si,
    /// An exact decimal in the range of double precision.
    Do,
    /// A whole number of 8 bits without a sign.
    By,
    /// A text.
    St,
}

/// The place of the type in the table of types, from 0. (It stands beside its case, as in that table.)
impl From<Kind> for u8 {
    ghost from_gives = { λ k n. n ≡ kind_number k };

    fn from(kind: Kind) -> u8 {
        match kind {
            Kind::Bo => 0,
            Kind::In => 1,
            Kind::Sh => 2,
            Kind::USh => 3,
            Kind::Lo => 4,
            Kind::Si => 5,
            Kind::Do => 6,
            Kind::By => 7,
            Kind::St => 8,
        }
    }
}

impl Kind {
    /// The identifier that names the type in a packet.
    pub fn word(self) -> &'static str
        ensures { result.now ≡ kind_word self }
    {
        match self {
            Kind::Bo => "Bo",
            Kind::In => "In",
            Kind::Sh => "Sh",
            Kind::USh => "USh",
            Kind::Lo => "Lo",
            Kind::Si => "Si",
            Kind::Do => "Do",
            Kind::By => "By",
            Kind::St => "St",
        }
    }
}

/// Writes the identifier.
impl fmt::Display for Kind {
    ghost output = { λ k. Some (kind_word k) };

    fn fmt<W: fmt::Write>(&self, f: &mut fmt::Formatter<W>) -> fmt::Result {
        f.write_str(self.word())
    }
}

/// The type that an identifier names.
impl FromStr for Kind {
    type Err = Unknown;

    ghost from_str_gives = { λ word r. result_ok r ≡ kind_named word };

    fn from_str(word: &str) -> Result<Kind, Unknown> {
        match word {
            "Bo" => Ok(Kind::Bo),
            "In" => Ok(Kind::In),
            "Sh" => Ok(Kind::Sh),
            "USh" => Ok(Kind::USh),
            "Lo" => Ok(Kind::Lo),
            "Si" => Ok(Kind::Si),
            "Do" => Ok(Kind::Do),
            "By" => Ok(Kind::By),
            "St" => Ok(Kind::St),
            _ => Err(Unknown),
        }
    }
}
