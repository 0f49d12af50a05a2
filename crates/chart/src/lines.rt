//! The lines of a file.
ghost use Rattle.std.specs.Prelude.{◌≡◌, ◌<◌, ◌≤◌, ◌∷◌, length};
ghost use Rattle.std.specs.Iterator.{YieldsFirstRef, item_count};
ghost use Rattle.chart.specs.Lines.{lines_of, left};

/// The lines of a text that are still to come. Any bytes may stand in a line; only a newline ends it, and the last line
/// may lack it. (std's `split` would hand out one more, an empty one, behind a last newline.)
#[derive(Clone, Copy)]
pub struct Lines<'a> {
    rest: &'a [u8],
}

/// The first line of a text, and what stands behind it.
fn split_line(text: &[u8]) -> (&[u8], &[u8])
    ensures { 0 < length text.now → lines_of text.now ≡ result.0.now ∷ lines_of result.1.now }
{
    match text.iter().position(|b| *b == b'\n') {
        Some(end) => (&text[..end], &text[end + 1..]),
        None => (text, &[]),
    }
}

impl<'a> Lines<'a> {
    /// The lines of a text.
    pub fn new(text: &'a [u8]) -> Lines<'a>
        ensures lines { left result ≡ lines_of text.now }
        ensures few { length (left result) ≤ length text.now }
    {
        Lines { rest: text }
    }
}

impl<'a> Iterator for Lines<'a> {
    type Item = &'a [u8];

    ghost next_gives = { YieldsFirstRef left };

    ghost remaining = { item_count left };

    fn next(&mut self) -> Option<&'a [u8]> {
        if self.rest.is_empty() {
            return None;
        }
        let (line, rest) = split_line(self.rest);
        self.rest = rest;
        Some(line)
    }
}
