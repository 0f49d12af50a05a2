//! The words of a packet's head. Each type has a table of its own: no two have a word or a number in common.
ghost use Rattle.std.specs.Prelude.{◌≡◌};
ghost use Rattle.std.specs.Result.{result_ok};
ghost use Rattle.field.specs.Words.{version_word, version_named, direction_word, direction_named, command_number, command_numbered};

use protocol::unknown::Unknown;
use std::str::FromStr;

/// The version of the protocol that a packet follows.
#[derive(Clone, Copy, Debug, PartialEq, Eq)]
pub enum Version {
    V10,
    V11,
}

/// Whether a packet asks or answers.
#[derive(Clone, Copy, Debug, PartialEq, Eq)]
pub enum Direction {
    Request,
    Answer,
}

/// What a packet is about.
#[derive(Clone, Copy, Debug, PartialEq, Eq)]
pub enum Command {
    Read,
    Write,
    Discovery,
}

impl Version {
    /// The word for the version.
    pub fn word(self) -> &'static str
        ensures { result.now ≡ version_word self }
    {
        match self {
            Version::V10 => "1.0",
            Version::V11 => "1.1",
        }
    }
}

/// The version that a word names.
impl FromStr for Version {
    type Err = Unknown;

    ghost from_str_gives = { λ word r. result_ok r ≡ version_named word };

    fn from_str(word: &str) -> Result<Version, Unknown> {
        match word {
            "1.0" => Ok(Version::V10),
            "1.1" => Ok(Version::V11),
            _ => Err(Unknown),
        }
    }
}

impl Direction {
    /// The word for the direction.
    pub fn word(self) -> &'static str
        ensures { result.now ≡ direction_word self }
    {
        match self {
            Direction::Request => "R",
            Direction::Answer => "A",
        }
    }
}

/// The direction that a word names.
impl FromStr for Direction {
    type Err = Unknown;

    ghost from_str_gives = { λ word r. result_ok r ≡ direction_named word };

    fn from_str(word: &str) -> Result<Direction, Unknown> {
        match word {
            "R" => Ok(Direction::Request),
            "A" => Ok(Direction::Answer),
            _ => Err(Unknown),
        }
    }
}

/// The number of the command. (It stands beside its case, as in the table of commands.)
impl From<Command> for u8 {
    ghost from_gives = { λ c n. n ≡ command_number c };

    fn from(command: Command) -> u8 {
        match command {
            Command::Read => 1,
            Command::Write => 2,
            Command::Discovery => 3,
        }
    }
}

/// The command that a number stands for.
impl TryFrom<u16> for Command {
    type Error = Unknown;

    ghost try_from_gives = { λ n r. result_ok r ≡ command_numbered n };

    fn try_from(number: u16) -> Result<Command, Unknown> {
        match number {
            1 => Ok(Command::Read),
            2 => Ok(Command::Write),
            3 => Ok(Command::Discovery),
            _ => Err(Unknown),
        }
    }
}
