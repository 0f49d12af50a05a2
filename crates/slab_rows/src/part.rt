//! Handing out the part of the memory at a place.
ghost use Rattle.std.specs.Prelude.{◌≡◌};
ghost use Rattle.slab_rows.specs.Places.{told, piece, part_of};

use crate::place::Place;
use protocol::refusal::Refusal;

/// The bytes of the memory from `start` on, as many as `length` says, or the refusal where they are not all inside it.
fn piece(memory: &[u8], start: usize, length: usize) -> Result<&[u8], Refusal>
    ensures { told (λ x. x.now) result ≡ piece memory.now start length }
{
    memory
        .get(start..)
        .and_then(|rest| rest.get(..length))
        .ok_or(Refusal::Limit)
}

/// The part of the slab or of the reply buffer at the place, or the refusal where the place is not inside.
pub fn hand_out<'m>(place: Place, slab: &'m [u8], reply: &'m [u8]) -> Result<&'m [u8], Refusal>
    ensures { told (λ x. x.now) result ≡ part_of place slab.now reply.now }
{
    match place {
        Place::Slab { start, length } => piece(slab, start, length),
        Place::Reply { length } => piece(reply, 0, length),
    }
}
