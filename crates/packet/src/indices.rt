//! The payload of a read request: an index in each group.
ghost use Rattle.std.specs.Prelude.{ℕ, refl, None};
ghost use Rattle.std.proofs.Common.{lit≤};
ghost use Rattle.packet.specs.Groups.{index_group};

use crate::groups::{Group, Groups, Width};
use crate::rules::number_in;
use field::fields::Fields;

/// A group of a read request is an index.
#[derive(Clone, Copy)]
pub struct IndexGroup;

/// The indices of a read request that are still to come.
pub type Indices<'a> = Groups<'a, IndexGroup>;

impl Width for IndexGroup {
    const WIDTH: u8 = 1;

    ghost WIDTH = { 1 };

    ghost narrow = { lit≤ tt };
}

impl<'a> Group<'a> for IndexGroup {
    type Item = u16;

    ghost Said = { ℕ };

    ghost said = { λ index. index };

    ghost group = { index_group };

    ghost none = { refl };

    ghost part = { λ _. None };

    fn read(fields: &mut Fields<'a>) -> Result<u16, u8> {
        number_in(fields.next(), 65535).ok_or(0)
    }
}
