//! Writing a packet of any kind.
ghost use Rattle.std.specs.Prelude.{◌≡◌};
ghost use Rattle.std.specs.Iterator.{IsFinite};
ghost use Rattle.packet.specs.Messages.{Message};
ghost use Rattle.writer.specs.Written.{message_head, AlwaysSpells, Wrote};

use crate::draft::Draft;
use crate::put::Put;
use packet::head::Head;
use protocol::refusal::Refusal;

/// Writes a packet of this head and these groups, and tells its length. `allowed` is what the test of the order told,
/// which is another for each message; a short row is told before it.
pub(crate) fn write<G: Put + Drop, I: Iterator<Item = G> + Drop>(
    row: &mut [u8],
    allowed: bool,
    head: Head,
    groups: I,
) -> Result<usize, Refusal>
    requires can { I.can_next groups }
    requires ends { IsFinite (I.remaining groups) }
    ensures { (m : Message) → head ≡ message_head m → AlwaysSpells I.next_gives G.fields G.fits groups allowed m → Wrote allowed m row.old row.new result }
{
    if row.len() < 512 {
        return Err(Refusal::ShortMemory);
    }
    if !allowed {
        return Err(Refusal::Limit);
    }
    let mut draft = Draft::new(row);
    draft.put_head(head);
    for group in groups {
        group.put(&mut draft);
    }
    draft.put(b"}");
    // There is room for all of them, so all were put.
    Ok(draft.len())
}
