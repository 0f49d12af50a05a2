//! The owner's write.
ghost use Rattle.std.specs.Prelude.{◌≡◌};
ghost use Rattle.protocol.specs.Words.{code_number};
ghost use Rattle.store.specs.Owner.{owner_write_of};

use crate::mount::MountBox;
use protocol::code::Code;
use protocol::kind::Kind;
use store::owner::owner_write;
use store::store::Store;

impl<S: Store> MountBox<S> {
    /// Writes a text to the store without any packet, as a value of the type named. The records stay.
    pub fn owner_write(&mut self, index: u16, kind: Kind, text: &[u8]) -> Code
        ensures code { code_number result ≡ (owner_write_of (S.meaning self.old.store) index kind text.now).code }
        ensures after { S.meaning self.new.store ≡ (owner_write_of (S.meaning self.old.store) index kind text.now).after }
        ensures records { self.new.senders.records ≡ self.old.senders.records }
    {
        owner_write(&mut self.store, index, kind, text)
    }
}
