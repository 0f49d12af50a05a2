//! What every store answers.
ghost use Rattle.std.specs.Prelude.{◌≡◌};
ghost use Rattle.protocol.specs.Words.{code_number};
ghost use Rattle.store.specs.Contents.{Contents, Sound, inside, kind_at, read_of, write_of, reading, typed};

use protocol::code::Code;
use protocol::kind::Kind;
use value::value::Value;

/// A store of variables: two limits and, for each index between them, nothing or an element.
/// No question changes anything; that a write leaves all but one element as it was, is said of its meaning.
pub trait Store {
    /// What the store means.
    ghost meaning: { Self → Contents };

    /// The limits, lowest and highest index, which never change.
    // Two numbers and no range: a contract says what each is, and a range would say besides how far it was gone through.
    fn limits(&self) -> (u16, u16)
        ensures low { result.0 ≡ (meaning self.now).low }
        ensures high { result.1 ≡ (meaning self.now).high };

    /// The type of the element at the index, or that there is none.
    fn kind(&self, index: u16) -> Option<Kind>
        ensures { result ≡ kind_at (meaning self.now) index };

    /// The value at the index, or why there is none: it lies outside the limits, or nothing is there.
    fn read(&self, index: u16) -> Result<Value, Code>
        ensures { reading result ≡ read_of (meaning self.now) index };

    /// Writes a value: outside the limits, nothing there, another type or a fixed element, or done. Unless it is done
    /// nothing changes.
    // The answer is a code and no Result, as the answer to a packet carries the code of each write, that of done too.
    fn write(&mut self, index: u16, value: Value) -> Code
        ensures code { code_number result ≡ (write_of (meaning self.old) index (typed value)).code }
        ensures after { meaning self.new ≡ (write_of (meaning self.old) index (typed value)).after };

    /// Whether the index lies between the limits.
    fn covers(&self, index: u16) -> bool
        ensures { result ≡ inside (meaning self.now) index }
    {
        let (low, high) = self.limits();
        (low..=high).contains(&index)
    }

    /// The lowest limit is not above the highest, no element lies outside them, and each element's value is of its type.
    ghost sound: { (s : Self) → Sound (meaning s) };
}
