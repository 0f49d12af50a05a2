//! The groups of packets.
ghost use Rattle.std.specs.Prelude.{Some};
ghost use Rattle.std.specs.List.{flat_map};
ghost use Rattle.packet.specs.Cursors.{write_of, readout_of, codes_ahead, readings_ahead};
ghost use Rattle.telling.specs.Lines.{change_text, reading_text, code_word, reading_word};

use crate::words::write_words;
use notation::strings::Noted;
use packet::codes::Codes;
use packet::readings::{Reading, Readings};
use packet::writes::Write;
use protocol::code::Code;
use std::fmt;

/// A group of a write request.
#[derive(Clone, Copy)]
pub(crate) struct Change<'a>(pub Write<'a>);

/// A group of a read answer.
#[derive(Clone, Copy)]
struct Readout<'a>(Reading<'a>);

/// The codes of a write answer, each as one more word of a line.
#[derive(Clone, Copy)]
pub struct CodeWords<'a>(pub Codes<'a>);

/// The groups of a read or Discovery answer, each as one more word of a line.
#[derive(Clone, Copy)]
pub struct ReadingWords<'a>(pub Readings<'a>);

/// Writes `I=TEXT`.
impl fmt::Display for Change<'_> {
    ghost output = { λ c. Some (change_text (write_of c.0)) };

    fn fmt<W: fmt::Write>(&self, f: &mut fmt::Formatter<W>) -> fmt::Result {
        let index = self.0.index;
        let text = Noted::new(self.0.text.text.as_bytes());
        write!(f, "{index}={text}")
    }
}

/// Writes `CODE:TYPE:TEXT`. Nil and 0 stand beside a code other than 0.
impl fmt::Display for Readout<'_> {
    ghost output = { λ r. Some (reading_text (readout_of r.0)) };

    fn fmt<W: fmt::Write>(&self, f: &mut fmt::Formatter<W>) -> fmt::Result {
        match self.0 {
            Ok(found) => {
                let code = u8::from(Code::Done);
                let kind = found.kind;
                let text = Noted::new(found.text.text.as_bytes());
                write!(f, "{code}:{kind}:{text}")
            }
            Err(code) => {
                let code = u8::from(code);
                write!(f, "{code}:Nil:0")
            }
        }
    }
}

impl fmt::Display for CodeWords<'_> {
    ghost output = { λ w. Some (flat_map code_word (codes_ahead w.0)) };

    fn fmt<W: fmt::Write>(&self, f: &mut fmt::Formatter<W>) -> fmt::Result {
        write_words(f, self.0.map(u8::from))
    }
}

impl fmt::Display for ReadingWords<'_> {
    ghost output = { λ w. Some (flat_map reading_word (readings_ahead w.0)) };

    fn fmt<W: fmt::Write>(&self, f: &mut fmt::Formatter<W>) -> fmt::Result {
        write_words(f, self.0.map(Readout))
    }
}
