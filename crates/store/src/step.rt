//! Reads and writes, and what they are answered.
use protocol::code::Code;
use value::value::Value;

/// A call on a store: a read at an index, or a write of a value there.
#[derive(Clone, Copy)]
pub enum Step {
    Read(u16),
    Write(u16, Value),
}

/// What a store answers to a call: the value that a read found, or no value to a write that was done, or else the code
/// that says why not.
pub type Answer = Result<Option<Value>, Code>;
