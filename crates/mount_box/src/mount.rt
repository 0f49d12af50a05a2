//! The station itself.
ghost use Rattle.std.specs.Prelude.{◌≡◌, replicate};
ghost use Rattle.mount_box.specs.Senders.{blank};

use crate::table::SenderTable;
use store::store::Store;

/// A box: its sender records, and its store.
#[derive(Drop)]
pub struct MountBox<S: Store> {
    pub(crate) senders: SenderTable,
    pub(crate) store: S,
}

impl<S: Store> MountBox<S> {
    /// A box over this store that knows no sender.
    pub fn new(store: S) -> MountBox<S>
        ensures records { result.senders.records ≡ replicate 16 blank }
        ensures store { result.store ≡ store }
    {
        let senders = SenderTable::new();
        MountBox { senders, store }
    }

    /// The store, to look at.
    pub fn store(&self) -> &S
        ensures { result.now ≡ self.now.store }
    {
        &self.store
    }
}
