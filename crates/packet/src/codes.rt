//! The payload of a write answer: a code in each group.
ghost use Rattle.std.specs.Prelude.{refl, None};
ghost use Rattle.std.proofs.Common.{lit≤};
ghost use Rattle.protocol.specs.declared.code.Code.{Code};
ghost use Rattle.packet.specs.Groups.{code_group};

use crate::groups::{Group, Groups, Width};
use crate::rules::code_in;
use field::fields::Fields;
use protocol::code::Code;

/// A group of a write answer is a code.
#[derive(Clone, Copy)]
pub struct CodeGroup;

/// The codes of a write answer that are still to come.
pub type Codes<'a> = Groups<'a, CodeGroup>;

impl Width for CodeGroup {
    const WIDTH: u8 = 1;

    ghost WIDTH = { 1 };

    ghost narrow = { lit≤ tt };
}

impl<'a> Group<'a> for CodeGroup {
    type Item = Code;

    ghost Said = { Code };

    ghost said = { λ code. code };

    ghost group = { code_group };

    ghost none = { refl };

    ghost part = { λ _. None };

    fn read(fields: &mut Fields<'a>) -> Result<Code, u8> {
        code_in(fields.next()).ok_or(0)
    }
}
