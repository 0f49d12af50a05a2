//! The calls of the sender table: how a request stands, and one record lent to be changed.
ghost use Rattle.std.specs.Prelude.{◌≡◌, ◌<◌, replicate, position, Some, IfSome, IfOk, slice_index_or};
ghost use Rattle.std.specs.Option.{option_map};
ghost use Rattle.std.specs.Borrow.{sem};
ghost use Rattle.slab_rows.specs.Places.{told};
ghost use Rattle.mount_box.specs.Lending.{LendsRecord};
ghost use Rattle.mount_box.specs.Senders.{blank, is_of, is_empty, standing};
ghost use Rattle.mount_box.specs.Views.{standing_of, record_of, KeptAt};

use crate::senders::SenderRecord;
use crate::standing::Standing;
use crate::table::SenderTable;
use protocol::refusal::Refusal;
use std::cmp::Ordering;

/// The first record of this sender, with its place.
fn find(records: &[Option<SenderRecord>], sender: u32) -> Option<(usize, SenderRecord)>
    ensures place { option_map (λ found. found.0) result ≡ position (is_of sender) records.now }
    ensures record { IfSome result (λ found. slice_index_or records.now found.0 blank ≡ Some found.1) }
{
    records.iter().enumerate().find_map(|(row, record)| {
        let record = record.filter(|record| record.address == sender);
        record.map(|record| (row, record))
    })
}

/// The place of the first empty record.
fn find_empty(records: &[Option<SenderRecord>]) -> Option<usize>
    ensures { result ≡ position is_empty records.now }
{
    records.iter().position(|record| record.is_none())
}

impl SenderTable {
    /// Sixteen empty records.
    pub(crate) fn new() -> SenderTable
        ensures { result.records ≡ replicate 16 blank }
    {
        SenderTable {
            records: [None; 16],
        }
    }

    /// Lends record k.
    pub(crate) fn record_mut(&mut self, k: usize) -> &mut Option<SenderRecord>
        requires { k < 16 }
        ensures* follows { sem 𝓛 (LendsRecord self.entry k result) }
        ensures value { result.now ≡ slice_index_or self.old.records k blank }
    {
        &mut self.records[k]
    }

    /// How a request with this number stands: by the record of a known sender, or for the lowest empty record.
    pub(crate) fn standing(&self, sender: u32, number: u16) -> Result<Standing, Refusal>
        ensures standing { told standing_of result ≡ standing self.now.records sender number }
        ensures within { IfOk result (λ s. record_of (standing_of s) < 16) }
        ensures kept { IfOk result (KeptAt self.now.records) }
    {
        match find(&self.records, sender) {
            Some((row, SenderRecord { newest, length, .. })) => match number.cmp(&newest) {
                Ordering::Equal => Ok(Standing::Repeated { row, length }),
                Ordering::Less => Err(Refusal::OldNumber),
                Ordering::Greater => Ok(Standing::Due { row }),
            },
            None => find_empty(&self.records)
                .map(|row| Standing::Due { row })
                .ok_or(Refusal::Unknown),
        }
    }
}
