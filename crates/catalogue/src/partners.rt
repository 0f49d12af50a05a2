//! The partners of a catalogue, and what it counted.
ghost use Rattle.std.specs.Prelude.{◌≡◌, ◌<◌, position, OnOk};
ghost use Rattle.catalogue.specs.Stations.{at_address, waiting_in};
ghost use Rattle.catalogue.specs.Judging.{timed, known};
ghost use Rattle.catalogue.specs.Kept.{Sound};

use crate::catalogue::Catalogue;
use crate::partner::Partner;
use crate::timing::LATEST;
use crate::told::Counts;
use protocol::refusal::Refusal;

/// How many of these have a transaction that waits.
// A loop, as `filter` and `count` take twice the instructions.
fn count_waiting(partners: &[Partner]) -> usize
    ensures { result ≡ waiting_in partners.now }
{
    let mut count = 0;
    for partner in partners {
        if partner.waiting.is_some() {
            count += 1;
        }
    }
    count
}

impl Catalogue {
    /// Which partner has this address.
    pub(crate) fn partner_at(&self, address: u32) -> Option<usize>
        ensures place { result ≡ position (at_address address) self.now.partners }
        ensures sound { Sound self.now }
    {
        self.partners
            .iter()
            .position(|partner| partner.address == address)
    }

    /// How many partners have a transaction that waits. So many are opened and not settled.
    pub fn waiting(&self) -> usize
        ensures waiting { result ≡ waiting_in self.now.partners }
        ensures sound { Sound self.now }
    {
        count_waiting(&self.partners)
    }

    /// What was counted since the making.
    pub fn counts(&self) -> Counts
        ensures counts { result ≡ self.now.counts }
        ensures sound { Sound self.now }
    {
        self.counts
    }

    /// Turns down a time that is before one that was accepted, or above 10^15.
    pub(crate) fn check_time(&self, time: u64) -> Result<(), Refusal>
        ensures timed { result ≡ timed self.now time }
        ensures sound { Sound self.now }
    {
        if time < self.clock || time > LATEST {
            return Err(Refusal::Time);
        }
        Ok(())
    }

    /// The partner with this number.
    pub(crate) fn known(&self, k: usize) -> Result<Partner, Refusal>
        ensures answer { result ≡ known self.now k }
        ensures sound { Sound self.now }
        ensures few { OnOk result (k < 16) }
    {
        self.partners.get(k).copied().ok_or(Refusal::Unknown)
    }
}
