//! Polling a partner.
ghost use Rattle.std.specs.Prelude.{◌≡◌, ◌<◌, ◌≤◌, length, Some, Ok};
ghost use Rattle.catalogue.specs.Kept.{Sound};
ghost use Rattle.catalogue.specs.Opening.{partner};
ghost use Rattle.catalogue.specs.Polling.{longer, spent, due, polling};
ghost use Rattle.catalogue.specs.Promises.{tallied_polling, Others};

use crate::catalogue::Catalogue;
use crate::partner::Waiting;
use crate::timing::{LATEST, Timing};
use crate::told::Poll;
use protocol::refusal::Refusal;
use slab_rows::place::Place;

impl Timing {
    /// Whether all repeats were made, or twice the interval is above the longest.
    fn is_spent(self, waiting: Waiting) -> bool
        requires { waiting.interval ≤ 600000 }
        ensures { result ≡ spent self waiting }
    {
        u32::from(waiting.repeats) >= self.repeats || 2 * waiting.interval > self.longest
    }
}

impl Waiting {
    /// The transaction sent again: from this time on, the doubled interval.
    fn longer(self, time: u64) -> Waiting
        requires interval { self.interval ≤ 600000 }
        requires repeats { self.repeats < 20 }
        requires time { time ≤ LATEST }
        ensures { result ≡ longer time self }
    {
        let interval = 2 * self.interval;
        Waiting {
            deadline: time + u64::from(interval),
            interval,
            repeats: self.repeats + 1,
            ..self
        }
    }
}

impl Catalogue {
    /// Gives up the transaction that waits at partner `k` and is due now, or has it sent again.
    fn poll_due(&mut self, k: usize, waiting: Waiting) -> Poll
        requires known { k < length self.old.partners }
        requires waits { (partner self.old k).waiting ≡ Some waiting }
        ensures answer { Ok result ≡ (due self.old k self.old.clock waiting).answer }
        ensures after { self.new ≡ (due self.old k self.old.clock waiting).after }
        ensures sound { Sound self.new }
    {
        if self.timing.is_spent(waiting) {
            self.partners[k].waiting = None;
            self.counts.failed += 1;
            return Poll::Failed(waiting.number);
        }
        self.partners[k].waiting = Some(waiting.longer(self.clock));
        self.counts.repeated += 1;
        Poll::Again(Place::Slab {
            start: 512 * k,
            length: waiting.length,
        })
    }

    /// Nothing is due, the packet is to be sent again, or its transaction is given up.
    pub fn poll(&mut self, partner: usize, time: u64) -> Result<Poll, Refusal>
        ensures answer { result ≡ (polling self.old partner time).answer }
        ensures after { self.new ≡ (polling self.old partner time).after }
        ensures counts { self.new.counts ≡ tallied_polling self.old.counts result }
        ensures others { Others partner self.old self.new }
        ensures sound { Sound self.new }
    {
        self.check_time(time)?;
        let polled = self.known(partner)?;
        self.clock = time;
        match polled.waiting {
            Some(waiting) if time >= waiting.deadline => Ok(self.poll_due(partner, waiting)),
            _ => Ok(Poll::NothingDue),
        }
    }
}
