//! What a conversion gives where there is nothing to give.
ghost use Rattle.std.specs.Prelude.{Some, codes};

use std::error::Error;
use std::fmt;

/// A word or a number that stands for nothing in the protocol.
#[derive(Clone, Copy, Debug, PartialEq, Eq)]
pub struct Unknown;

impl fmt::Display for Unknown {
    ghost output = { λ _. Some (codes "unknown") };

    fn fmt<W: fmt::Write>(&self, f: &mut fmt::Formatter<W>) -> fmt::Result {
        f.write_str("unknown")
    }
}

impl Error for Unknown {}
