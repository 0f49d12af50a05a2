//! Texts for a reader.
use protocol::text::Text;
use std::fmt;

/// A text that prints in one line: a control character is shown by its number.
#[derive(Clone, Copy)]
pub struct Printable<'a>(pub &'a Text);

impl fmt::Display for Printable<'_> {
    fn fmt<W: fmt::Write>(&self, f: &mut fmt::Formatter<W>) -> fmt::Result {
        for c in self.0.as_str().chars() {
            if c.is_control() {
                write!(f, "\\x{:02x}", u32::from(c))?;
            } else {
                write!(f, "{c}")?;
            }
        }
        Ok(())
    }
}
