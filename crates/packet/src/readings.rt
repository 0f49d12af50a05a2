//! The payload of a read or Discovery answer: a code, a type and a value in each group.
ghost use Rattle.std.specs.Prelude.{◌≡◌, ◌<◌, refl, IfOk, IfErr};
ghost use Rattle.std.specs.Option.{option_map};
ghost use Rattle.std.proofs.Common.{lit≤};
ghost use Rattle.field.specs.Parts.{part_bytes};
ghost use Rattle.packet.specs.Rules.{with_ok, Passes};
ghost use Rattle.packet.specs.Groups.{Readout, reading_by, reading_group};
ghost use Rattle.packet.specs.Cursors.{readout_of, reading_part};

use crate::groups::{Group, Groups, Width};
use crate::rules::{code_in, is_word, kind_in, value_in};
use field::fields::Fields;
use field::part::Part;
use protocol::code::Code;
use protocol::kind::Kind;

/// What goes with code 0: the type of the value, and its text.
#[derive(Clone, Copy)]
pub struct Found<'a> {
    pub kind: Kind,
    pub text: Part<'a>,
}

/// One group of a read answer: what was found, or the code with which no value goes.
pub type Reading<'a> = Result<Found<'a>, Code>;

/// A group of a read or Discovery answer is a code, a type and a value.
#[derive(Clone, Copy)]
pub struct ReadingGroup;

/// The groups of a read answer that are still to come.
pub type Readings<'a> = Groups<'a, ReadingGroup>;

/// The group that these three fields are, or the place of the first at fault, from which a refusal's number is counted.
fn reading_by<'a>(
    code: Option<Part<'a>>,
    word: Option<Part<'a>>,
    text: Option<Part<'a>>,
) -> Result<Reading<'a>, u8>
    ensures group { with_ok readout_of result ≡ reading_by (option_map part_bytes code.entry) (option_map part_bytes word.entry) (option_map part_bytes text.entry) }
    ensures bound { IfErr result (λ place. place < 3) }
    ensures place { IfOk result (λ x. Passes text.entry (reading_part x)) }
{
    match code_in(code).ok_or(0)? {
        Code::Done => {
            let kind = kind_in(word).ok_or(1)?;
            let text = value_in(kind, text).ok_or(2)?;
            Ok(Ok(Found { kind, text }))
        }
        _ if !is_word(word, "Nil") => Err(1),
        _ if !is_word(text, "0") => Err(2),
        code => Ok(Err(code)),
    }
}

impl Width for ReadingGroup {
    const WIDTH: u8 = 3;

    ghost WIDTH = { 3 };

    ghost narrow = { lit≤ tt };
}

impl<'a> Group<'a> for ReadingGroup {
    type Item = Reading<'a>;

    ghost Said = { Readout };

    ghost said = { readout_of };

    ghost group = { reading_group };

    ghost none = { refl };

    ghost part = { reading_part };

    fn read(fields: &mut Fields<'a>) -> Result<Reading<'a>, u8> {
        let code = fields.next();
        let word = fields.next();
        let text = fields.next();
        reading_by(code, word, text)
    }
}
