//! Reading a table of calls. Each row is one call with what it is to be answered:
//!     limits LOW HIGH
//!     kind INDEX TYPE         where nothing is, the type is `none`
//!     read INDEX CODE         and with code 0 the type and the text
//!     write INDEX TYPE TEXT CODE
//!     owner INDEX TYPE TEXT CODE
//!     text INDEX TEXT CODE
use protocol::code::Code;
use protocol::kind::Kind;
use std::process::Abort;
use std::str::Split;
use std::test::Fail;
use store::owner::{owner_write, write_text};
use store::rejected::Rejected;
use store::store::Store;
use value::read::read_value;
use value::value::Value;

/// A row of a table: what it says, and the words of it that are still to be read.
#[derive(Drop)]
pub struct Row<'a> {
    text: &'a str,
    words: Split<'a, char>,
}

impl<'a> Row<'a> {
    /// The row that says this.
    pub fn new(text: &'a str) -> Row<'a> {
        let words = text.split(' ');
        Row { text, words }
    }

    /// The next word, if there is one.
    pub fn next_word(&mut self) -> Option<&'a str> {
        self.words.next()
    }

    /// The next word, or a fault of the table.
    fn word(&mut self) -> Result<&'a str, Fail> {
        self.next_word()
            .ok_or_else(|| Fail::new("a word is missing"))
    }

    /// The number that the next word writes.
    pub fn number(&mut self) -> Result<u16, Fail> {
        Ok(self.word()?.parse::<u16>()?)
    }

    /// The type that the next word names.
    fn kind(&mut self) -> Result<Kind, Fail> {
        let word = self.word()?;
        word.parse::<Kind>().map_err(|_| Fail::new("no type"))
    }

    /// The value that the next two words write, its type and its text.
    pub fn value(&mut self) -> Result<Value, Fail> {
        let kind = self.kind()?;
        let text = self.word()?;
        read_value(kind, text.as_bytes()).ok_or_else(|| Fail::new("no value"))
    }

    /// Checks that the next word is the code.
    fn gives(&mut self, rt: &impl Abort, code: Code) -> Result<(), Fail> {
        let row = self.text;
        let number = self.number()?;
        assert!(rt; u16::from(u8::from(code)) == number, "{row}");
        Ok(())
    }

    /// Checks that the next word is this one.
    fn tells(&mut self, rt: &impl Abort, told: &str) -> Result<(), Fail> {
        let row = self.text;
        let word = self.word()?;
        assert!(rt; told == word, "{row}");
        Ok(())
    }
}

/// Checks that what was to be made is turned down by 13, and that so many come back.
pub fn comes_back<M: Drop, T: Drop>(
    rt: &impl Abort,
    made: Result<M, Rejected<Vec<T>>>,
    count: usize,
) -> Result<(), Fail> {
    let Err(rejected) = made else {
        return Err(Fail::new("it was made"));
    };
    assert!(rt; u8::from(rejected.refusal) == 13);
    assert!(rt; rejected.given.len() == count);
    Ok(())
}

/// Checks the limits.
fn limits<S: Store>(rt: &impl Abort, row: &mut Row, store: &S) -> Result<(), Fail> {
    let text = row.text;
    let (low, high) = store.limits();
    let lowest = row.number()?;
    let highest = row.number()?;
    assert!(rt; lowest == low, "{text}");
    assert!(rt; highest == high, "{text}");
    Ok(())
}

/// Checks the type at an index.
fn kind<S: Store>(rt: &impl Abort, row: &mut Row, store: &S) -> Result<(), Fail> {
    let index = row.number()?;
    row.tells(rt, store.kind(index).map_or("none", |kind| kind.word()))
}

/// Checks a read.
fn read<S: Store>(rt: &impl Abort, row: &mut Row, store: &S) -> Result<(), Fail> {
    let index = row.number()?;
    match store.read(index) {
        Ok(found) => {
            let text = found.spelling();
            row.gives(rt, Code::Done)?;
            row.tells(rt, found.kind().word())?;
            row.tells(rt, text.as_str())
        }
        Err(code) => row.gives(rt, code),
    }
}

/// Checks a write.
fn write<S: Store>(rt: &impl Abort, row: &mut Row, store: &mut S) -> Result<(), Fail> {
    let index = row.number()?;
    let value = row.value()?;
    row.gives(rt, store.write(index, value))
}

/// Checks a write of the owner.
fn owner<S: Store>(rt: &impl Abort, row: &mut Row, store: &mut S) -> Result<(), Fail> {
    let index = row.number()?;
    let kind = row.kind()?;
    let text = row.word()?;
    row.gives(rt, owner_write(store, index, kind, text.as_bytes()))
}

/// Checks the write of a text.
fn text<S: Store>(rt: &impl Abort, row: &mut Row, store: &mut S) -> Result<(), Fail> {
    let index = row.number()?;
    let text = row.word()?;
    row.gives(rt, write_text(store, index, text.as_bytes()))
}

/// Makes the call of a row and checks the answer.
fn answers<S: Store>(rt: &impl Abort, store: &mut S, row: &mut Row) -> Result<(), Fail> {
    match row.word()? {
        "limits" => limits(rt, row, store),
        "kind" => kind(rt, row, store),
        "read" => read(rt, row, store),
        "write" => write(rt, row, store),
        "owner" => owner(rt, row, store),
        "text" => text(rt, row, store),
        _ => Err(Fail::new("no such call")),
    }
}

/// Makes the calls of a table in order and checks each answer.
pub fn holds<S: Store>(rt: &impl Abort, store: &mut S, table: &str) -> Result<(), Fail> {
    for line in table.lines() {
        answers(rt, store, &mut Row::new(line))?;
    }
    Ok(())
}
