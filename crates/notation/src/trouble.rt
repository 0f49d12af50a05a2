//! Why a command gets no answer of its own.
ghost use Rattle.std.specs.Prelude.{◌≡◌};
ghost use Rattle.notation.specs.declared.trouble.Trouble.TheVariants.{NotUnderstood, NoMemory};

use protocol::unknown::Unknown;
use std::alloc::{AllocError, AllocFailed};
use std::str::Utf8Error;

/// What keeps a command from being carried out.
#[derive(Clone, Copy, Debug, PartialEq, Eq)]
pub enum Trouble {
    /// The line is no command.
    NotUnderstood,
    /// There is no memory for the answer.
    NoMemory,
}

impl From<AllocError> for Trouble {
    ghost from_gives = { λ _ r. r ≡ NoMemory };

    fn from(_e: AllocError) -> Trouble {
        Trouble::NoMemory
    }
}

impl<T: Drop> From<AllocFailed<T>> for Trouble {
    ghost from_gives = { λ _ r. r ≡ NoMemory };

    fn from(_e: AllocFailed<T>) -> Trouble {
        Trouble::NoMemory
    }
}

impl From<Unknown> for Trouble {
    ghost from_gives = { λ _ r. r ≡ NotUnderstood };

    fn from(_e: Unknown) -> Trouble {
        Trouble::NotUnderstood
    }
}

impl From<Utf8Error> for Trouble {
    ghost from_gives = { λ _ r. r ≡ NotUnderstood };

    fn from(_e: Utf8Error) -> Trouble {
        Trouble::NotUnderstood
    }
}
