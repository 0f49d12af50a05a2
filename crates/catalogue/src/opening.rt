//! Opening transactions.
ghost use Rattle.std.specs.Prelude.{◌≡◌, ◌+◌, ◌*◌, ◌≤◌, true, map, OnOk};
ghost use Rattle.packet.specs.Messages.{read_request, write_request};
ghost use Rattle.writer.specs.Orders.{counted, change_of, changes_allowed};
ghost use Rattle.catalogue.specs.Opening.{partner, opening, count_opened};
ghost use Rattle.catalogue.specs.Judging.{judged, asking_with, Free, placed};
ghost use Rattle.catalogue.specs.Kept.{Sound};
ghost use Rattle.catalogue.specs.Promises.{tallied_opening, Others, Elsewhere, Back};

use crate::catalogue::Catalogue;
use crate::order::Order;
use crate::partner::Waiting;
use crate::told::Sent;
use protocol::refusal::Refusal;
use slab_rows::place::Place;
use writer::change::Change;

// The clauses `counts`, `others` and `rest` compare what was before a call and after it, which no type can say: each call that
// the station offers states them for itself, and `open` states them for two. Row k of the slab is the 512 bytes from 512 × k on,
// a rule of the link, which contracts name, so it is written out.
impl Catalogue {
    /// The number of the transaction that can be opened with partner `k`, or the first ground against opening one. Whether
    /// the order is allowed comes as a flag, since the grounds of time, memory and partner are told before it.
    fn free_number(&self, memory: usize, k: usize, time: u64, allowed: bool) -> Result<u16, Refusal>
        ensures answer { result ≡ judged self.now memory k time allowed }
        ensures free { OnOk result (Free self.now k time) }
        ensures allowed { OnOk result (allowed ≡ true) }
        ensures row { OnOk result (512 * k + 512 ≤ memory) }
        ensures sound { Sound self.now }
    {
        self.check_time(time)?;
        if memory < 8192 {
            return Err(Refusal::ShortMemory);
        }
        let partner = self.known(k)?;
        if !allowed {
            return Err(Refusal::Limit);
        }
        if partner.waiting.is_some() {
            return Err(Refusal::StillWaits);
        }
        u16::try_from(partner.next).map_err(|_| Refusal::Exhausted)
    }

    /// Notes the transaction that now waits at partner `k`.
    fn note(&mut self, k: usize, time: u64, waiting: Waiting)
        requires free { Free self.old k time }
        requires interval { waiting.interval ≤ self.old.timing.longest }
        requires repeats { waiting.repeats ≡ 0 }
        ensures after { self.new ≡ placed self.old k (asking_with waiting (partner self.old k)) time (count_opened self.old.counts) }
        ensures sound { Sound self.new }
    {
        let partner = &mut self.partners[k];
        partner.next += 1;
        partner.waiting = Some(waiting);
        self.clock = time;
        self.counts.opened += 1;
    }

    /// Opens a transaction that asks this. Its packet goes to the front of the partner's row.
    fn open<O: Order>(
        &mut self,
        slab: &mut [u8],
        partner: usize,
        time: u64,
        order: O,
    ) -> Result<Sent, Refusal>
        ensures answer { result ≡ (opening self.old slab.old partner time (O.allowed order) (O.content order)).answer }
        ensures after { self.new ≡ (opening self.old slab.old partner time (O.allowed order) (O.content order)).after }
        ensures slab { slab.new ≡ (opening self.old slab.old partner time (O.allowed order) (O.content order)).slab }
        ensures counts { self.new.counts ≡ tallied_opening self.old.counts result }
        ensures others { Others partner self.old self.new }
        ensures rest { Elsewhere result slab.old slab.new }
        ensures back { Back (O.content order) slab.new result }
        ensures sound { Sound self.new }
    {
        let number = self.free_number(slab.len(), partner, time, order.is_allowed())?;
        let start = 512 * partner;
        let row = &mut slab[start..start + 512];
        let length = order.write(row, number)?;
        let interval = self.timing.first;
        let waiting = Waiting {
            number,
            command: order.command(),
            count: order.count(),
            length,
            deadline: time + u64::from(interval),
            interval,
            repeats: 0,
        };
        self.note(partner, time, waiting);
        let place = Place::Slab { start, length };
        Ok(Sent { number, place })
    }

    /// Opens a transaction that reads the elements at these indices. Its packet goes to the front of the partner's row.
    pub fn open_read(
        &mut self,
        slab: &mut [u8],
        partner: usize,
        time: u64,
        indices: &[u16],
    ) -> Result<Sent, Refusal>
        ensures answer { result ≡ (opening self.old slab.old partner time (counted indices.now) (read_request indices.now)).answer }
        ensures after { self.new ≡ (opening self.old slab.old partner time (counted indices.now) (read_request indices.now)).after }
        ensures slab { slab.new ≡ (opening self.old slab.old partner time (counted indices.now) (read_request indices.now)).slab }
        ensures counts { self.new.counts ≡ tallied_opening self.old.counts result }
        ensures others { Others partner self.old self.new }
        ensures rest { Elsewhere result slab.old slab.new }
        ensures back { Back (read_request indices.now) slab.new result }
        ensures sound { Sound self.new }
    {
        self.open(slab, partner, time, indices)
    }

    /// Opens a transaction that makes these changes. Its packet goes to the front of the partner's row.
    pub fn open_write(
        &mut self,
        slab: &mut [u8],
        partner: usize,
        time: u64,
        changes: &[Change],
    ) -> Result<Sent, Refusal>
        ensures answer { result ≡ (opening self.old slab.old partner time (changes_allowed changes.now) (write_request (map change_of changes.now))).answer }
        ensures after { self.new ≡ (opening self.old slab.old partner time (changes_allowed changes.now) (write_request (map change_of changes.now))).after }
        ensures slab { slab.new ≡ (opening self.old slab.old partner time (changes_allowed changes.now) (write_request (map change_of changes.now))).slab }
        ensures counts { self.new.counts ≡ tallied_opening self.old.counts result }
        ensures others { Others partner self.old self.new }
        ensures rest { Elsewhere result slab.old slab.new }
        ensures back { Back (write_request (map change_of changes.now)) slab.new result }
        ensures sound { Sound self.new }
    {
        self.open(slab, partner, time, changes)
    }
}
