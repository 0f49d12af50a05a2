//! Withdrawing a transaction.
ghost use Rattle.std.specs.Prelude.{◌≡◌};
ghost use Rattle.catalogue.specs.Kept.{Sound};
ghost use Rattle.catalogue.specs.Promises.{tallied_withdrawing, Others};
ghost use Rattle.catalogue.specs.Withdrawing.{withdrawing};

use crate::catalogue::Catalogue;
use protocol::refusal::Refusal;

impl Catalogue {
    /// Withdraws the transaction that waits at a partner, and tells its number.
    pub fn withdraw(&mut self, partner: usize) -> Result<u16, Refusal>
        ensures answer { result ≡ (withdrawing self.old partner).answer }
        ensures after { self.new ≡ (withdrawing self.old partner).after }
        ensures counts { self.new.counts ≡ tallied_withdrawing self.old.counts result }
        ensures others { Others partner self.old self.new }
        ensures sound { Sound self.new }
    {
        let waiting = self.known(partner)?.waiting.ok_or(Refusal::NoneWaits)?;
        self.partners[partner].waiting = None;
        self.counts.withdrawn += 1;
        Ok(waiting.number)
    }
}
