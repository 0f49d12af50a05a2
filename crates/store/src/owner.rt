//! Writing a text to any store.
ghost use Rattle.std.specs.Prelude.{◌≡◌, if◌then◌else◌};
ghost use Rattle.protocol.specs.Words.{code_number};
ghost use Rattle.store.specs.Contents.{inside, kind_at};
ghost use Rattle.store.specs.Owner.{mismatched, owner_write_of, write_text_of};

use crate::store::Store;
use protocol::code::Code;
use protocol::kind::Kind;
use value::read::read_value;

/// The code of a write with no value to write: outside the limits, nothing there, or the wrong type.
fn no_value<S: Store>(store: &S, index: u16) -> Code
    ensures { code_number result ≡ (if inside (S.meaning store.now) index then mismatched (kind_at (S.meaning store.now) index) else 3) }
{
    store.read(index).err().unwrap_or(Code::WrongType)
}

/// The owner's write: a text as a value of the type named. Outside the limits and nothing there come first; then the
/// type is wrong where the text does not read as that type, the element is of another, or it is fixed.
pub fn owner_write<S: Store>(store: &mut S, index: u16, kind: Kind, text: &[u8]) -> Code
    ensures code { code_number result ≡ (owner_write_of (S.meaning store.old) index kind text.now).code }
    ensures after { S.meaning store.new ≡ (owner_write_of (S.meaning store.old) index kind text.now).after }
{
    match read_value(kind, text) {
        Some(value) => store.write(index, value),
        None => no_value(store, index),
    }
}

/// Writes a text as a value of the element's own type, with the codes of the owner's write.
pub fn write_text<S: Store>(store: &mut S, index: u16, text: &[u8]) -> Code
    ensures code { code_number result ≡ (write_text_of (S.meaning store.old) index text.now).code }
    ensures after { S.meaning store.new ≡ (write_text_of (S.meaning store.old) index text.now).after }
{
    match store.kind(index) {
        Some(kind) => owner_write(store, index, kind, text),
        None => no_value(store, index),
    }
}
