//! Which orders can be written: those of 1 to 10 groups, in which each text is one and no value is
//! missing. Each call has the name of its rule, by which orders are judged; `is_counted` does the work of all.
ghost use Rattle.std.specs.Prelude.{◌≡◌};
ghost use Rattle.writer.specs.Orders.{counted, told, all_texts, all_told, changes_allowed, readings_allowed};

use crate::change::Change;
use protocol::code::Code;
use value::value::Value;

/// Whether there are 1 to 10 groups.
fn is_counted<T>(groups: &[T]) -> bool
    ensures { result ≡ counted groups.now }
{
    (1..=10).contains(&groups.len())
}

/// Whether there are 1 to 10 indices.
pub fn indices_allowed(indices: &[u16]) -> bool
    ensures { result ≡ counted indices.now }
{
    is_counted(indices)
}

/// Whether there are 1 to 10 codes.
pub fn codes_allowed(codes: &[Code]) -> bool
    ensures { result ≡ counted codes.now }
{
    is_counted(codes)
}

/// Whether each change has a text.
fn all_texts(changes: &[Change]) -> bool
    ensures { result ≡ all_texts changes.now }
{
    changes.iter().all(|change| change.text.is_some())
}

/// Whether there are 1 to 10 changes, each with a text.
pub fn changes_allowed(changes: &[Change]) -> bool
    ensures { result ≡ changes_allowed changes.now }
{
    is_counted(changes) && all_texts(changes)
}

/// Whether the reading is a value or a code other than 0.
fn is_told(reading: &Result<Value, Code>) -> bool
    ensures { result ≡ told reading.now }
{
    !matches!(reading, Err(Code::Done))
}

/// Whether each reading is a value or a code other than 0.
pub(crate) fn all_told(readings: &[Result<Value, Code>]) -> bool
    ensures { result ≡ all_told readings.now }
{
    readings.iter().all(is_told)
}

/// Whether there are 1 to 10 readings, each of them a value or a code other than 0.
pub fn readings_allowed(readings: &[Result<Value, Code>]) -> bool
    ensures { result ≡ readings_allowed readings.now }
{
    is_counted(readings) && all_told(readings)
}
