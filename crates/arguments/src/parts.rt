//! Words of several parts.
ghost use Rattle.std.specs.Prelude.{◌≡◌};
ghost use Rattle.std.specs.Option.{option_map};
ghost use Rattle.arguments.specs.Parts.{cut_at, three_of, fixed_of, item_of, item, star_of, star, change_of, change};
ghost use Rattle.notation.specs.Readings.{Understood};

use crate::numbers::{read_angle, read_kind, read_number};
use notation::strings::decode;
use notation::trouble::Trouble;
use protocol::kind::Kind;
use std::alloc::Global;

/// An element of a shelf as a word writes it: `INDEX:TYPE:TEXT`, or `INDEX:TYPE:TEXT:fixed`.
#[derive(Drop)]
pub struct ItemWord {
    pub index: u16,
    pub kind: Kind,
    pub text: Vec<u8>,
    // A mark of its own: a fixed element has its text like any other.
    pub fixed: bool,
}

/// A star as a word writes it: `NAME:RA:DEC`.
#[derive(Drop)]
pub struct StarWord {
    pub name: Vec<u8>,
    pub ascension: i32,
    pub declination: i32,
}

/// An index and a text as a word writes them: `I=TEXT`.
#[derive(Drop)]
pub struct ChangeWord {
    pub index: u16,
    pub text: Vec<u8>,
}

/// What stands before and behind the first `mark`, if there is one.
#[tactic(auto, using(crate::proofs::Cuts::cut_none))]
fn cut(word: &[u8], mark: u8) -> Option<(&[u8], &[u8])>
    ensures { option_map (λ p. (p.0.now, p.1.now)) result ≡ cut_at mark word.now }
{
    let at = word.iter().position(|b| *b == mark)?;
    Some((&word[..at], &word[at + 1..]))
}

/// What stands before the first colon, between it and the second, and behind that.
fn three_parts(word: &[u8]) -> Option<(&[u8], &[u8], &[u8])>
    ensures { option_map (λ p. (p.0.now, p.1.now, p.2.now)) result ≡ three_of word.now }
{
    let (first, rest) = cut(word, b':')?;
    let (second, third) = cut(rest, b':')?;
    Some((first, second, third))
}

/// A text, and whether the word `fixed` stands behind it.
fn fixed_text(word: &[u8]) -> Option<(&[u8], bool)>
    ensures { option_map (λ p. (p.0.now, p.1)) result ≡ fixed_of word.now }
{
    match cut(word, b':') {
        None => Some((word, false)),
        Some((text, b"fixed")) => Some((text, true)),
        Some(_) => None,
    }
}

/// The element that a word writes.
pub fn read_item(heap: Global, word: &[u8]) -> Result<ItemWord, Trouble>
    ensures { Understood item (item_of word.now) result }
{
    let (index, kind, rest) = three_parts(word).ok_or(Trouble::NotUnderstood)?;
    let (text, fixed) = fixed_text(rest).ok_or(Trouble::NotUnderstood)?;
    Ok(ItemWord {
        index: read_number(index)?,
        kind: read_kind(kind)?,
        text: decode(heap, text)?,
        fixed,
    })
}

/// The star that a word writes.
pub fn read_star(heap: Global, word: &[u8]) -> Result<StarWord, Trouble>
    ensures { Understood star (star_of word.now) result }
{
    let (name, ascension, declination) = three_parts(word).ok_or(Trouble::NotUnderstood)?;
    Ok(StarWord {
        ascension: read_angle(ascension)?,
        declination: read_angle(declination)?,
        name: decode(heap, name)?,
    })
}

/// The index and the text that a word writes.
pub fn read_change(heap: Global, word: &[u8]) -> Result<ChangeWord, Trouble>
    ensures { Understood change (change_of word.now) result }
{
    let (index, text) = cut(word, b'=').ok_or(Trouble::NotUnderstood)?;
    Ok(ChangeWord {
        index: read_number(index)?,
        text: decode(heap, text)?,
    })
}
