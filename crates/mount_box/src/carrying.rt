//! Carrying out a request: its groups in order, and the answer with one group for each.
ghost use Rattle.std.specs.Prelude.{◌≡◌, ◌≤◌, true, map, length, take};
ghost use Rattle.packet.specs.Cursors.{indices_ahead, writes_ahead};
ghost use Rattle.packet.specs.Messages.{read_answer, write_answer};
ghost use Rattle.packet.specs.Packets.{message_of};
ghost use Rattle.field.specs.declared.words.Version.TheVariants.{V11};
ghost use Rattle.writer.specs.Orders.{counted, readout_of, answered};
ghost use Rattle.mount_box.specs.Carrying.{shown, write_codes, after_writes, who, left_by};
ghost use Rattle.mount_box.specs.Answers.{Received, Answers, Carries};

use field::words::Version;
use packet::indices::Indices;
use packet::packet::{Body, Packet};
use packet::writes::Writes;
use protocol::code::Code;
use protocol::refusal::Refusal;
use store::owner::write_text;
use store::store::Store;
use value::value::Value;
use writer::answers::{write_discovery_answer, write_read_answer, write_write_answer};

// Both loops count their places, since the count is what they tell, and what `iter_mut` lends has no name in a loop's
// invariant. Of a request its version, its number and one kind of groups travel on, and not the packet, whose body is
// matched once.

/// Reads each index in the store, in order, and tells how many there were.
fn read_all<S: Store>(
    store: &S,
    indices: Indices<'_>,
    readings: &mut [Result<Value, Code>],
) -> usize
    requires { length (indices_ahead indices) ≤ length readings.old }
    ensures count { result ≡ length (indices_ahead indices.entry) }
    ensures readings { map readout_of (take result readings.new) ≡ map (shown (S.meaning store.now)) (indices_ahead indices.entry) }
{
    let mut count = 0;
    for index in indices {
        readings[count] = store.read(index);
        count += 1;
    }
    count
}

/// Writes each text to the store, in order, and tells how many there were.
fn write_all<S: Store>(store: &mut S, writes: Writes<'_>, codes: &mut [Code]) -> usize
    requires { length (writes_ahead writes) ≤ length codes.old }
    ensures count { result ≡ length (writes_ahead writes.entry) }
    ensures codes { take result codes.new ≡ write_codes (S.meaning store.old) (writes_ahead writes.entry) }
    ensures after { S.meaning store.new ≡ after_writes (S.meaning store.old) (writes_ahead writes.entry) }
{
    let mut count = 0;
    for write in writes {
        codes[count] = write_text(store, write.index, write.text.text.as_bytes());
        count += 1;
    }
    count
}

/// Answers a read request at the front of the row.
fn answer_read<S: Store>(
    store: &S,
    row: &mut [u8],
    version: Version,
    number: u16,
    indices: Indices<'_>,
) -> Result<usize, Refusal>
    requires { counted (indices_ahead indices) ≡ true }
    ensures { Answers (answered version number (read_answer (map (shown (S.meaning store.now)) (indices_ahead indices.entry)))) result row.old row.new }
{
    // An array and no `ArrayVec`, which starts empty only where its items have a default.
    let mut readings = [Err(Code::NotFound); 10];
    let count = read_all(store, indices, &mut readings);
    write_read_answer(row, version, number, &readings[..count])
}

/// Carries out a write request, and answers it at the front of the row.
fn answer_write<S: Store>(
    store: &mut S,
    row: &mut [u8],
    version: Version,
    number: u16,
    writes: Writes<'_>,
) -> Result<usize, Refusal>
    requires { counted (writes_ahead writes) ≡ true }
    ensures answer { Answers (answered version number (write_answer (write_codes (S.meaning store.old) (writes_ahead writes.entry)))) result row.old row.new }
    ensures after { S.meaning store.new ≡ after_writes (S.meaning store.old) (writes_ahead writes.entry) }
{
    // An array here too: a code has no default either.
    let mut codes = [Code::NotFound; 10];
    let count = write_all(store, writes, &mut codes);
    write_write_answer(row, version, number, &codes[..count])
}

/// Answers a Discovery request at the front of the row.
fn answer_discovery<S: Store>(store: &S, row: &mut [u8], number: u16) -> Result<usize, Refusal>
    ensures { Answers (answered V11 number (who (S.meaning store.now))) result row.old row.new }
{
    write_discovery_answer(row, number, store.read(2), store.read(3))
}

/// Carries out a request and answers it at the front of the row, or turns an answer down.
pub(crate) fn carry_out<S: Store>(
    store: &mut S,
    row: &mut [u8],
    request: Packet<'_>,
) -> Result<usize, Refusal>
    requires { Received (message_of request) }
    ensures answer { Carries (S.meaning store.old) (message_of request.entry) result row.old row.new }
    ensures after { S.meaning store.new ≡ left_by (S.meaning store.old) (message_of request.entry).content }
{
    let version = request.version;
    let number = request.number;
    match request.body {
        Body::ReadRequest(indices) => answer_read(store, row, version, number, indices),
        Body::WriteRequest(writes) => answer_write(store, row, version, number, writes),
        Body::DiscoveryRequest => answer_discovery(store, row, number),
        Body::ReadAnswer(_) | Body::WriteAnswer(_) | Body::DiscoveryAnswer(_) => {
            Err(Refusal::Direction)
        }
    }
}
