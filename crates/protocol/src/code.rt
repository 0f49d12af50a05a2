//! The codes of answers.
ghost use Rattle.std.specs.Prelude.{◌≡◌};
ghost use Rattle.std.specs.Result.{result_ok};
ghost use Rattle.protocol.specs.Words.{code_number, code_numbered};

use crate::unknown::Unknown;

/// What a box answers to one group of a request.
#[derive(Clone, Copy, Debug, PartialEq, Eq)]
pub enum Code {
    /// The read or write was done.
    Done,
    /// There is no element at the index.
    NotFound,
    /// The text is no value of the element's type, or the element is fixed.
    WrongType,
    /// The index lies outside the limits of the list.
    OutsideLimits,
}

/// The number that stands for the code in a packet. (It stands beside its case, as in the table of codes.)
impl From<Code> for u8 {
    ghost from_gives = { λ c n. n ≡ code_number c };

    fn from(code: Code) -> u8 {
        match code {
            Code::Done => 0,
            Code::NotFound => 1,
            Code::WrongType => 2,
            Code::OutsideLimits => 3,
        }
    }
}

/// The code that a number stands for.
impl TryFrom<u16> for Code {
    type Error = Unknown;

    ghost try_from_gives = { λ n r. result_ok r ≡ code_numbered n };

    fn try_from(number: u16) -> Result<Code, Unknown> {
        match number {
            0 => Ok(Code::Done),
            1 => Ok(Code::NotFound),
            2 => Ok(Code::WrongType),
            3 => Ok(Code::OutsideLimits),
            _ => Err(Unknown),
        }
    }
}
