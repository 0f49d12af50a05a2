//! Words of a line, one after another.
ghost use Rattle.std.specs.Prelude.{IsOk};
ghost use Rattle.std.specs.Iterator.{IsFinite};
ghost use Rattle.std.specs.Fmt.{IsPlainFormatter};
ghost use Rattle.telling.specs.Words.{WritesEach};

use std::fmt;

/// Writes each as one more word of a line.
pub(crate) fn write_words<W: fmt::Write, T: fmt::Display + Drop, I: Iterator<Item = T> + Drop>(
    f: &mut fmt::Formatter<W>,
    words: I,
) -> fmt::Result
    requires can { I.can_next words }
    requires ends { IsFinite (I.remaining words) }
    ensures { IsPlainFormatter f.old → IsOk result → WritesEach I.next_gives T.output W.write_str_gives words f.old f.new }
{
    for word in words {
        write!(f, " {word}")?;
    }
    Ok(())
}
