//! A packet while it is put together, at the front of the row that it is written into.
ghost use Rattle.std.specs.Prelude.{◌≡◌, ◌∷◌, decimal};
ghost use Rattle.writer.specs.Bytes.{colon, parted, head_fields};
ghost use Rattle.writer.specs.Drafts.{Puts};

use packet::head::Head;
use protocol::numeral::Numeral;
use protocol::row;

/// The bytes of a packet so far: those of the caller's row up to the place where the next one goes.
#[derive(Drop)]
pub(crate) struct Draft<'a> {
    row: &'a mut [u8],
    at: usize,
}

impl<'a> Draft<'a> {
    /// A draft without bytes, at the front of the row.
    pub(crate) fn new(row: &'a mut [u8]) -> Draft<'a>
        ensures name { result.row.ghost_name ≡ row.entry.ghost_name }
        ensures row { result.row.now ≡ row.old }
        ensures at { result.at ≡ 0 }
    {
        Draft { row, at: 0 }
    }

    /// How many bytes there are so far.
    pub(crate) fn len(&self) -> usize
        ensures { result ≡ self.now.at }
    {
        self.at
    }

    /// Puts bytes behind those so far, if the row has room for them. (Text by `write!` would answer a
    /// `Result` with no promise of when it is `Ok`, and the calls that write a packet promise theirs.)
    pub(crate) fn put(&mut self, bytes: &[u8])
        ensures { Puts self.old bytes.now self.new }
    {
        self.at = row::put(self.row, self.at, bytes);
    }

    /// Puts a colon and a field.
    pub(crate) fn put_field(&mut self, field: &[u8])
        ensures { Puts self.old (colon field.now) self.new }
    {
        self.put(b":");
        self.put(field);
    }

    /// Puts a colon and a number.
    pub(crate) fn put_number(&mut self, number: u16)
        ensures { Puts self.old (colon (decimal number)) self.new }
    {
        if number < 10 {
            // One digit, as of a code, is put with its colon.
            self.put(&[b':', b'0' + number as u8]);
        } else {
            self.put_field(Numeral::new(u64::from(number)).as_bytes());
        }
    }

    /// Puts the opening brace and the four fields of the head. (Inlined, since most of a head is known where it is put.)
    #[inline]
    pub(crate) fn put_head(&mut self, head: Head)
        ensures { Puts self.old (123 ∷ parted (head_fields head.version head.direction head.number head.command)) self.new }
    {
        self.put(b"{");
        self.put(head.version.word().as_bytes());
        self.put_field(head.direction.word().as_bytes());
        self.put_number(head.number);
        self.put_number(u16::from(u8::from(head.command)));
    }
}
