//! The words of a line.
ghost use Rattle.std.specs.Prelude.{◌≡◌, ◌==◌, length, take, drop, not, if◌then◌else◌, Ok, Err, nat_eq, position, unwrap_or};
ghost use Rattle.std.specs.Option.{ok_or};
ghost use Rattle.std.specs.Result.{result_map_both as mapped-ok};
ghost use Rattle.std.specs.Iterator.{YieldsFirstRef, item_count};
ghost use Rattle.field.specs.Fields.{first};
ghost use Rattle.notation.specs.Lines.{words_of, ahead};
ghost use Rattle.notation.specs.declared.trouble.Trouble.TheVariants.{NotUnderstood};

use crate::trouble::Trouble;

/// The words of a line that are still to come. One or more spaces part them.
#[derive(Clone, Copy)]
pub struct Words<'a> {
    rest: &'a [u8],
}

impl<'a> Words<'a> {
    /// The words of a line.
    pub fn new(line: &'a [u8]) -> Words<'a>
        ensures { ahead result ≡ words_of line.now }
    {
        Words { rest: line }
    }

    /// The next word, which the line has to have.
    pub fn word(&mut self) -> Result<&'a [u8], Trouble>
        ensures word { mapped-ok (λ x. x.now) (λ e. e) result ≡ ok_or (first (ahead self.old)) NotUnderstood }
        ensures after { ahead self.new ≡ drop 1 (ahead self.old) }
    {
        self.next().ok_or(Trouble::NotUnderstood)
    }

    /// No word may follow.
    pub fn end(&mut self) -> Result<(), Trouble>
        ensures { result ≡ (if nat_eq (length (ahead self.old)) 0 then Ok tt else Err NotUnderstood) }
    {
        if self.next().is_some() {
            return Err(Trouble::NotUnderstood);
        }
        Ok(())
    }
}

impl<'a> Iterator for Words<'a> {
    type Item = &'a [u8];

    ghost next_gives = { YieldsFirstRef ahead };

    ghost remaining = { item_count ahead };

    fn next(&mut self) -> Option<&'a [u8]> {
        let start = self.rest.iter().position(|b| *b != b' ')?;
        let text = &self.rest[start..];
        let end = text.iter().position(|b| *b == b' ').unwrap_or(text.len());
        let (word, rest) = text.split_at(end);
        self.rest = rest;
        Some(word)
    }
}
