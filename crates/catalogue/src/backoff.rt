//! How long a catalogue keeps trying.
ghost use Rattle.std.specs.Prelude.{◌≡◌, ◌≤◌, true};
ghost use Rattle.catalogue.specs.Stations.{timely};
ghost use Rattle.catalogue.specs.Backoff.{gives_up_at, reached, BacksOff, GivesUp};
ghost use Rattle.catalogue.specs.Kept.{Sound};

use crate::catalogue::Catalogue;
use crate::timing::{LATEST, Timing};

impl Timing {
    /// The deadline at which an order that was opened at this time is given up, if it is polled at each deadline.
    fn last_deadline(self, time: u64) -> u64
        requires time { time ≤ LATEST }
        requires timely { timely self ≡ true }
        ensures { result ≡ gives_up_at self time }
    {
        let mut interval = self.first;
        let mut deadline = time + u64::from(interval);
        // A chain by `successors` knows no bound on the intervals that it doubles and adds up.
        for _repeat in 0..self.repeats {
            if 2 * interval > self.longest {
                break;
            }
            interval *= 2;
            deadline += u64::from(interval);
        }
        deadline
    }
}

impl Catalogue {
    /// When an order that is opened at this time, and polled at each deadline, is given up: none where that is above 10^15,
    /// since no poll can come then.
    pub fn gives_up_at(&self, time: u64) -> Option<u64>
        ensures time { result ≡ reached (gives_up_at self.now.timing time) }
        ensures each { BacksOff self.now time }
        ensures all { GivesUp self.now time }
        ensures sound { Sound self.now }
    {
        let timing = self.timing;
        if time > LATEST {
            return None;
        }
        Some(timing.last_deadline(time)).filter(|deadline| *deadline <= LATEST)
    }
}
