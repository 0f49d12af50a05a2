//! A cursor over the fields of a packet.
ghost use Rattle.std.specs.Prelude.{◌≡◌, length, ◌==◌};
ghost use Rattle.std.specs.Iterator.{item_count};
ghost use Rattle.field.specs.Parts.{fields_left, HandsOut};

use crate::part::Part;

/// The fields of a packet that are still to come: those of the rest, if there is one.
#[derive(Clone, Copy)]
pub struct Fields<'a> {
    pub rest: Option<Part<'a>>,
}

impl Fields<'_> {
    /// Whether no field is left.
    pub fn is_empty(&self) -> bool
        ensures { result ≡ (length (fields_left self.now) == 0) }
    {
        self.rest.is_none()
    }
}

/// The fields one after the other, each with its place.
impl<'a> Iterator for Fields<'a> {
    type Item = Part<'a>;

    ghost next_gives = { HandsOut };

    ghost remaining = { item_count fields_left };

    fn next(&mut self) -> Option<Part<'a>> {
        let rest = self.rest?;
        match rest.text.split_once(':') {
            Some((text, behind)) => {
                let end = rest.end;
                self.rest = Some(Part { text: behind, end });
                let end = end.saturating_sub(behind.len() + 1);
                Some(Part { text, end })
            }
            None => {
                self.rest = None;
                Some(rest)
            }
        }
    }
}
