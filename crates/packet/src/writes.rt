//! The payload of a write request: an index and a text in each group.
ghost use Rattle.std.specs.Prelude.{ℕ, List, refl, Some};
ghost use Rattle.std.proofs.Common.{lit≤};
ghost use Rattle.packet.specs.Groups.{write_group};
ghost use Rattle.packet.specs.Cursors.{write_of};

use crate::groups::{Group, Groups, Width};
use crate::rules::{number_in, text_in};
use field::fields::Fields;
use field::part::Part;

/// One group of a write request.
#[derive(Clone, Copy)]
pub struct Write<'a> {
    pub index: u16,
    pub text: Part<'a>,
}

/// A group of a write request is an index and a text.
#[derive(Clone, Copy)]
pub struct WriteGroup;

/// The groups of a write request that are still to come.
pub type Writes<'a> = Groups<'a, WriteGroup>;

impl Width for WriteGroup {
    const WIDTH: u8 = 2;

    ghost WIDTH = { 2 };

    ghost narrow = { lit≤ tt };
}

impl<'a> Group<'a> for WriteGroup {
    type Item = Write<'a>;

    ghost Said = { ℕ × List ℕ };

    ghost said = { write_of };

    ghost group = { write_group };

    ghost none = { refl };

    ghost part = { λ write. Some write.text };

    fn read(fields: &mut Fields<'a>) -> Result<Write<'a>, u8> {
        let index = number_in(fields.next(), 65535).ok_or(0)?;
        let text = text_in(fields.next()).ok_or(1)?;
        Ok(Write { index, text })
    }
}
