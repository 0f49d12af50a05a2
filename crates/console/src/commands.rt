//! The commands. The first word of a line names the command.
//!
//!     value TYPE BYTES    -> value SPELLING | none
//!     packet BYTES        -> what the packet says | refused N | refused N FIELD
use arguments::numbers::read_kind;
use notation::strings::{Noted, decode};
use notation::trouble::Trouble;
use notation::words::Words;
use packet::packet::read_packet;
use std::alloc::{AllocError, Global};
use telling::packets::PacketLine;
use value::read::read_value;

/// The answers to all lines of a script.
pub fn answer_all(heap: Global, script: &[u8]) -> Result<String, AllocError> {
    let mut answers = String::new(heap);
    for line in script.split(|b| *b == b'\n') {
        answer_line(heap, line, &mut answers)?;
    }
    Ok(answers)
}

/// Writes the answer to one line, unless it is empty or a comment.
fn answer_line(heap: Global, line: &[u8], answers: &mut String) -> Result<(), AllocError> {
    if line.is_empty() || line.starts_with(b"#") {
        return Ok(());
    }
    match command(heap, Words::new(line), answers) {
        Ok(()) => Ok(()),
        Err(Trouble::NotUnderstood) => answers.push_str("error\n"),
        Err(Trouble::NoMemory) => Err(AllocError),
    }
}

/// Carries out the command that the words of a line are. It writes only if it understands the whole line.
fn command(heap: Global, mut words: Words<'_>, answers: &mut String) -> Result<(), Trouble> {
    match words.word()? {
        b"value" => value(heap, words, answers),
        b"packet" => packet(heap, words, answers),
        _ => Err(Trouble::NotUnderstood),
    }
}

/// Reads a text as a value of a type, and tells its spelling.
fn value(heap: Global, mut words: Words<'_>, answers: &mut String) -> Result<(), Trouble> {
    let kind = read_kind(words.word()?)?;
    let text = decode(heap, words.word()?)?;
    words.end()?;
    match read_value(kind, &text) {
        Some(value) => {
            let spelling = value.spelling();
            let spelling = Noted::new(spelling.as_bytes());
            writeln!(answers, "value {spelling}")?;
        }
        None => answers.push_str("none\n")?,
    }
    Ok(())
}

/// Reads a packet, and tells what it says or why it is refused.
fn packet(heap: Global, mut words: Words<'_>, answers: &mut String) -> Result<(), Trouble> {
    let bytes = decode(heap, words.word()?)?;
    words.end()?;
    match read_packet(&bytes) {
        Ok(packet) => writeln!(answers, "{}", PacketLine(&packet))?,
        Err(refusal) => writeln!(answers, "{refusal}")?,
    }
    Ok(())
}
