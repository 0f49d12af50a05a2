//! What a draft takes: the groups of a payload.
ghost use Rattle.std.specs.Prelude.{ℕ, ◌<◌, List, IfOk};
ghost use Rattle.std.specs.List.{flat_map};
ghost use Rattle.value.specs.Meant.{kind_of, datum_of};
ghost use Rattle.value.specs.Values.{spelled, Valid};
ghost use Rattle.packet.specs.Cursors.{write_of, found_of};
ghost use Rattle.packet.specs.Groups.{found};
ghost use Rattle.writer.specs.Again.{again_readout};
ghost use Rattle.writer.specs.Bytes.{colon, index_fields, write_fields, code_fields, readout_fields};
ghost use Rattle.writer.specs.Drafts.{Puts, told_fields};
ghost use Rattle.writer.specs.Orders.{change_of};

use crate::change::Change;
use crate::draft::Draft;
use packet::readings::Found;
use packet::writes::Write;
use protocol::code::Code;
use protocol::kind::Kind;
use value::read::read_value;
use value::value::Value;

/// A group of a payload, which is put into a draft field by field.
pub(crate) trait Put {
    // The fields that it is written as.
    ghost fields: { Self → List (List ℕ) };

    // What its type says of it.
    ghost fits: { Self → Type 0 } = { λ _. Unit {0} };

    /// Puts the fields of the group.
    fn put(&self, draft: &mut Draft<'_>)
        ensures puts { Puts draft.old (flat_map colon (fields self.now)) draft.new }
        ensures fits { fits self.now };
}

impl<G: Put> Put for &G {
    ghost fields = { λ group. G.fields group.now };

    ghost fits = { λ group. G.fits group.now };

    fn put(&self, draft: &mut Draft<'_>) {
        (**self).put(draft);
    }
}

/// An index.
impl Put for u16 {
    ghost fields = { index_fields };

    ghost fits = { λ index. index < 65536 };

    fn put(&self, draft: &mut Draft<'_>) {
        draft.put_number(*self);
    }
}

/// An index and a text.
impl Put for Change {
    ghost fields = { λ change. write_fields (change_of change) };

    ghost fits = { λ change. change.index < 65536 };

    fn put(&self, draft: &mut Draft<'_>) {
        draft.put_number(self.index);
        draft.put_field(self.bytes());
    }
}

/// An index and a text that were read.
impl Put for Write<'_> {
    ghost fields = { λ write. write_fields (write_of write) };

    fn put(&self, draft: &mut Draft<'_>) {
        draft.put_number(self.index);
        draft.put_field(self.text.text.as_bytes());
    }
}

impl Put for Code {
    ghost fields = { code_fields };

    fn put(&self, draft: &mut Draft<'_>) {
        draft.put_number(u16::from(u8::from(*self)));
    }
}

/// Puts code 0, a type and a text.
fn put_found(draft: &mut Draft<'_>, kind: Kind, text: &[u8])
    ensures { Puts draft.old (flat_map colon (readout_fields (found kind text.now))) draft.new }
{
    draft.put_number(0);
    draft.put_field(kind.word().as_bytes());
    draft.put_field(text);
}

/// Code 0, and the value in its one spelling.
impl Put for Value {
    ghost fields = { λ value. readout_fields (found (kind_of value) (spelled (datum_of value))) };

    ghost fits = { λ value. Valid (kind_of value) (datum_of value) };

    fn put(&self, draft: &mut Draft<'_>) {
        put_found(draft, self.kind(), self.spelling().as_bytes());
    }
}

/// Code 0, and the value that was read in its one spelling.
impl Put for Found<'_> {
    ghost fields = { λ found. readout_fields (again_readout (found_of found)) };

    fn put(&self, draft: &mut Draft<'_>) {
        match read_value(self.kind, self.text.text.as_bytes()) {
            Some(value) => value.put(draft),
            None => put_found(draft, self.kind, b""),
        }
    }
}

/// What was found, or a code with Nil and 0.
impl<V: Put> Put for Result<V, Code> {
    ghost fields = { told_fields V.fields };

    ghost fits = { λ reading. IfOk reading V.fits };

    fn put(&self, draft: &mut Draft<'_>) {
        match self {
            Ok(found) => found.put(draft),
            Err(code) => {
                code.put(draft);
                draft.put_field(b"Nil");
                draft.put_field(b"0");
            }
        }
    }
}
