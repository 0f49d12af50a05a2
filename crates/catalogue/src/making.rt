//! Making a catalogue, and enlisting its partners.
ghost use Rattle.std.specs.Prelude.{◌≡◌, IfOk};
ghost use Rattle.catalogue.specs.Stations.{timely, making, enlisting};
ghost use Rattle.catalogue.specs.Kept.{Sound};

use crate::catalogue::Catalogue;
use crate::partner::Partner;
use crate::timing::Timing;
use crate::told::Counts;
use arrayvec::ArrayVec;
use protocol::refusal::Refusal;

impl Timing {
    /// Whether a catalogue can have this timing.
    fn is_timely(self) -> bool
        ensures { result ≡ timely self }
    {
        (1000..=60_000).contains(&self.first)
            && (self.first..=600_000).contains(&self.longest)
            && self.repeats <= 20
    }
}

impl Catalogue {
    /// A catalogue with a first interval of 1,000 to 60,000 milliseconds, a longest one of that to 600,000, and 0 to 20
    /// repeats. It has no partner yet.
    pub fn new(first: u32, longest: u32, repeats: u32) -> Result<Catalogue, Refusal>
        ensures made { result ≡ making (record { first = first; longest = longest; repeats = repeats }) }
        ensures sound { IfOk result Sound }
    {
        let timing = Timing {
            first,
            longest,
            repeats,
        };
        if !timing.is_timely() {
            return Err(Refusal::Limit);
        }
        Ok(Catalogue {
            timing,
            clock: 0,
            partners: ArrayVec::new(),
            counts: Counts::default(),
        })
    }

    /// Makes the station at this address a partner, and tells its number.
    pub fn enlist(&mut self, address: u32) -> Result<usize, Refusal>
        ensures answer { result ≡ (enlisting self.old address).answer }
        ensures after { self.new ≡ (enlisting self.old address).after }
        ensures counts { self.new.counts ≡ self.old.counts }
        ensures sound { Sound self.new }
    {
        if self.partner_at(address).is_some() {
            return Err(Refusal::Enlisted);
        }
        let k = self.partners.len();
        let newcomer = Partner {
            address,
            ..Partner::default()
        };
        self.partners
            .try_push(newcomer)
            .map_err(|_| Refusal::Enlisted)?;
        Ok(k)
    }
}
