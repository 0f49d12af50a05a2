//! Byte strings: a byte from 0x21 to 0x7e but the backslash stands for itself, `\xNN` with two lower-case digits for any
//! byte, and `\e` alone for the empty string.
ghost use Rattle.std.specs.Prelude.{◌≡◌, ◌+◌, ◌<◌, ◌≤◌, ◌++◌, length, take, IfSome, Some, vec_items};
ghost use Rattle.std.specs.List.{flat_map};
ghost use Rattle.std.specs.Str.{IsAscii};
ghost use Rattle.std.specs.Iterator.{at_most};
ghost use Rattle.notation.specs.Strings.{plain, hex_digit, digit_of, byte_of, word_of, noted, noted_byte, WordsReadBack};
ghost use Rattle.notation.specs.Readings.{Understood, ReadsSign};

use crate::trouble::Trouble;
use std::alloc::Global;
use std::fmt;
use std::str::from_utf8;

/// Bytes in the notation of a word, which `decode` takes for them.
#[derive(Clone, Copy)]
pub struct Noted<'a>(pub &'a [u8]);

impl<'a> Noted<'a> {
    /// These bytes in the notation: the word that is written for them stands for them.
    pub fn new(bytes: &'a [u8]) -> Noted<'a>
        ensures bytes { result.0.now ≡ bytes.now }
        ensures back { word_of (noted bytes.now) ≡ Some bytes.now }
    {
        Noted(bytes)
    }
}

/// The signs of a word that are still to be read. Each stands for a byte.
#[derive(Clone, Copy)]
struct Signs<'a>(&'a [u8]);

/// Whether a byte stands for itself.
fn is_plain(b: u8) -> bool
    ensures { result ≡ plain b }
{
    b.is_ascii_graphic() && b != b'\\'
}

/// The value of a lower-case hexadecimal digit.
fn digit(b: u8) -> Option<u8>
    ensures value { result ≡ digit_of b }
    ensures bound { IfSome result (λ n. n < 16) }
{
    match b {
        b'0'..=b'9' => Some(b - b'0'),
        b'a'..=b'f' => Some(b - b'a' + 10),
        _ => None,
    }
}

/// The lower-case hexadecimal digit of a number below 16.
fn hex(n: u8) -> u8
    requires { n < 16 }
    ensures { result ≡ hex_digit n }
{
    if n < 10 { b'0' + n } else { b'a' + n - 10 }
}

/// The byte that two hexadecimal digits write.
fn hex_byte(high: u8, low: u8) -> Option<u8>
    ensures { result ≡ byte_of (digit_of high) (digit_of low) }
{
    Some(digit(high)? * 16 + digit(low)?)
}

impl Iterator for Signs<'_> {
    type Item = Result<u8, Trouble>;

    ghost next_gives = { λ s r t. ReadsSign s.0.now r t.0.now };

    ghost remaining = { λ s. at_most (length s.0.now) };

    fn next(&mut self) -> Option<Result<u8, Trouble>> {
        let (byte, rest) = match self.0 {
            [] => return None,
            [b'\\', b'x', high, low, rest @ ..] => (hex_byte(*high, *low), rest),
            [b, rest @ ..] => (is_plain(*b).then_some(*b), rest),
        };
        self.0 = rest;
        Some(byte.ok_or(Trouble::NotUnderstood))
    }
}

/// The bytes that a word stands for. (A `for` with `?`: a byte may be no sign or find no memory, and the contract says which.)
#[tactic(auto, using(crate::proofs::Backs::read_back, crate::proofs::Notes::behind_start, crate::proofs::Notes::behind_more, crate::proofs::Notes::misread))]
pub fn decode(heap: Global, word: &[u8]) -> Result<Vec<u8>, Trouble>
    ensures taken { Understood vec_items (word_of word.now) result }
    ensures back { WordsReadBack }
{
    let mut bytes = Vec::new(heap);
    if word == b"\\e".as_slice() {
        return Ok(bytes);
    }
    for byte in Signs(word) {
        bytes.push(byte?)?;
    }
    Ok(bytes)
}

/// How many bytes are written at once.
const PART: usize = 32;

/// Notes a byte behind what the room has up to here, and says where its note ends.
fn note_byte(b: u8, room: &mut [u8; 128], at: usize) -> usize
    requires { at + 4 ≤ 128 }
    ensures end { result ≤ at + 4 }
    ensures note { take result room.new ≡ take at room.old ++ noted_byte b }
{
    if is_plain(b) {
        room[at] = b;
        return at + 1;
    }
    let (high, low) = (hex(b / 16), hex(b % 16));
    room[at] = b'\\';
    room[at + 1] = b'x';
    room[at + 2] = high;
    room[at + 3] = low;
    at + 4
}

/// ASCII bytes as a text.
fn text(bytes: &[u8]) -> &str
    requires { IsAscii bytes.now }
    ensures { result.now ≡ bytes.now }
{
    from_utf8(bytes).unwrap()
}

/// A few bytes in the notation, which the room holds.
fn note<'r>(bytes: &[u8], room: &'r mut [u8; 128]) -> &'r str
    requires { length bytes.now ≤ 32 }
    ensures { result.now ≡ flat_map noted_byte bytes.now }
{
    let mut end = 0;
    for b in bytes {
        end = note_byte(*b, room, end);
    }
    text(&room[..end])
}

impl fmt::Display for Noted<'_> {
    ghost output = { λ n. Some (noted n.0.now) };

    fn fmt<W: fmt::Write>(&self, f: &mut fmt::Formatter<W>) -> fmt::Result {
        if self.0.is_empty() {
            return f.write_str("\\e");
        }
        let mut rest = self.0;
        while !rest.is_empty() {
            let (part, behind) = rest.split_at(rest.len().min(PART));
            f.write_str(note(part, &mut [0; 128]))?;
            rest = behind;
        }
        Ok(())
    }
}
