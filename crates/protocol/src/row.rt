//! Writing into a row of bytes.
ghost use Rattle.std.specs.Prelude.{◌≡◌, ℕ, ◌+◌, ◌<◌, ◌≤◌, length, if◌then◌else◌, decimal};
ghost use Rattle.protocol.specs.Rows.{put_at, fits};
ghost use Rattle.protocol.specs.Held.{digits_of};

use crate::numeral::Numeral;
use itoa::Buffer;

impl Numeral {
    /// The digits of a number.
    pub fn new(n: u64) -> Numeral
        ensures { digits_of result ≡ decimal n }
    {
        let mut buffer = Buffer::new();
        let digits = buffer.format(n).as_bytes();
        let len = digits.len();
        let mut bytes = [0; 20];
        bytes[..len].copy_from_slice(digits);
        Numeral { bytes, len }
    }

    /// The digits as bytes.
    pub fn as_bytes(&self) -> &[u8]
        ensures value { result.now ≡ digits_of self.now }
        ensures short { length result.now ≤ 20 }
    {
        &self.bytes[0..self.len]
    }
}

/// Writes the bytes into the row from a place on, and tells where they end. Without room for all
/// of them it writes none. (A row and a place, and no struct of both: the row is lent for this one call.)
pub fn put(row: &mut [u8], at: usize, bytes: &[u8]) -> usize
    ensures end { result ≡ (if fits row.old at bytes.now then at + length bytes.now else at) }
    ensures row { row.new ≡ (if fits row.old at bytes.now then put_at row.old at bytes.now else row.old) }
{
    let n = bytes.len();
    if row.len() < n || row.len() - n < at {
        return at;
    }
    let end = at + n;
    row[at..end].copy_from_slice(bytes);
    end
}
