//! The groups of a payload, and a cursor over them.
ghost use Rattle.std.specs.Prelude.{◌≡◌, ℕ, ◌<◌, ◌≤◌, List, [], length, drop, IfOk, IfErr, OnOk, Err, Option, Result};
ghost use Rattle.std.specs.Iterator.{item_count};
ghost use Rattle.field.specs.declared.part.Part.{Part};
ghost use Rattle.field.specs.Fields.{fields};
ghost use Rattle.field.specs.Parts.{part_bytes, fields_left, Hands, Onward};
ghost use Rattle.packet.specs.Rules.{with_ok, Keeps};
ghost use Rattle.packet.specs.Groups.{groups};
ghost use Rattle.packet.specs.Cursors.{groups_ahead, HandsOut};

use field::fields::Fields;
use field::part::Part;
use std::marker::PhantomData;

/// How many fields a group has, three at most. (An impl of `Group` can hold no constant where its item borrows.)
pub trait Width {
    const WIDTH: u8;

    ghost WIDTH: { ℕ };

    ghost narrow: { WIDTH ≤ 3 };
}

/// A kind of groups.
pub trait Group<'a>: Width {
    /// One group.
    type Item: Copy;

    // What a group says.
    ghost Said: { Type 0 };

    ghost said: { Self.Item → Said };

    // The rule: from the group's first field on, what the group says, or the place in it of the first field at fault.
    ghost group: { List (List ℕ) → Result Said ℕ };

    // No fields are no group.
    ghost none: { group [] ≡ Err 0 };

    // The part of the packet that a group holds.
    ghost part: { Self.Item → Option Part };

    /// Reads a group, or tells the place in it of the first field at fault: a number, since the refusal tells the
    /// number of the field.
    fn read(fields: &mut Fields<'a>) -> Result<Self::Item, u8>
        ensures group { with_ok said result ≡ group (fields_left fields.old) }
        ensures bound { IfErr result (λ place. place < Self.WIDTH) }
        ensures after { OnOk result (fields_left fields.new ≡ drop Self.WIDTH (fields_left fields.old)) }
        ensures place { IfOk result (λ x. Hands fields.old (part x)) }
        ensures onward { Onward fields.old fields.new };
}

/// The groups of a payload that are still to come, and how many. That the count agrees with the fields is told by `read`,
/// and is no invariant: it would bind the struct by `Group<'a>`, and with it all that holds a cursor.
#[derive(Clone, Copy)]
pub struct Groups<'a, G> {
    pub(crate) fields: Fields<'a>,
    pub(crate) left: u8,
    group: PhantomData<G>,
}

impl<'a, G: Group<'a>> Groups<'a, G> {
    /// Reads a payload of `least` to `most` groups, or tells the number of the first field at fault, as a refusal does.
    pub(crate) fn read(payload: Part<'a>, least: u8, most: u8) -> Result<Groups<'a, G>, u8>
        requires { most ≤ 10 }
        ensures groups { with_ok (groups_ahead G.WIDTH G.group) result ≡ groups G.WIDTH G.group 4 least (fields (part_bytes payload.entry)) most }
        ensures count { IfOk result (λ c. c.left ≡ length (groups_ahead G.WIDTH G.group c)) }
        ensures place { IfOk result (λ c. Keeps payload.entry c.fields) }
    {
        let all = Fields {
            rest: Some(payload),
        };
        let mut rest = all;
        // How many groups there are, which is what is to be found out, and no index.
        let mut count = 0;
        while !rest.is_empty() {
            let first = 4 + G::WIDTH * count;
            if count == most {
                return Err(first);
            }
            // A closure for `map_err` has no proof here, since the bound on G names a lifetime.
            match G::read(&mut rest) {
                Ok(_) => count += 1,
                Err(place) => return Err(first + place),
            }
        }
        if count < least {
            return Err(4 + G::WIDTH * count);
        }
        Ok(Groups {
            fields: all,
            left: count,
            group: PhantomData,
        })
    }
}

impl<'a, G: Group<'a>> Iterator for Groups<'a, G> {
    type Item = G::Item;

    ghost next_gives = { HandsOut G.said G.part (groups_ahead G.WIDTH G.group) };

    ghost remaining = { item_count (groups_ahead G.WIDTH G.group) };

    /// The next group.
    fn next(&mut self) -> Option<G::Item> {
        if self.left == 0 {
            return None;
        }
        match G::read(&mut self.fields) {
            Ok(group) => {
                self.left -= 1;
                Some(group)
            }
            Err(_) => {
                self.left = 0;
                None
            }
        }
    }
}
