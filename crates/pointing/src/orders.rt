//! What is sent to the mount: a write request for each target.
use crate::wishes::Target;
use packet::packet::{Body, read_packet};
use protocol::refusal::Refusal;
use sky::star::Star;
use std::alloc::{AllocError, Global};
use std::io;
use std::str::from_utf8;
use value::value::Value;
use writer::change::Change;
use writer::requests::write_write_request;

/// The elements of the mount that take a target: its name, its right ascension and its declination.
const NAME: u16 = 100;

const ASCENSION: u16 = 101;

const DECLINATION: u16 = 102;

/// Writes the request that points the mount at a star into a row, and gives the part of the row that it fills.
fn write_order<'a>(row: &'a mut [u8; 512], number: u16, star: &Star) -> Result<&'a [u8], Refusal> {
    let name = Value::St(star.name()).spelling();
    let ascension = Value::In(star.ascension()).spelling();
    let declination = Value::In(star.declination()).spelling();
    let changes = [
        Change::new(NAME, name.as_bytes()),
        Change::new(ASCENSION, ascension.as_bytes()),
        Change::new(DECLINATION, declination.as_bytes()),
    ];
    let length = write_write_request(row, number, &changes)?;
    Ok(&row[..length])
}

/// What a write request asks for, as it is read.
fn read_order(heap: Global, bytes: &[u8]) -> Result<String, AllocError> {
    let mut told = String::new(heap);
    if let Ok(packet) = read_packet(bytes)
        && let Body::WriteRequest(groups) = packet.body
    {
        for group in groups.take(usize::from(packet.count())) {
            write!(told, " {}={}", group.index, group.text.text)?;
        }
    }
    Ok(told)
}

/// Prints the request of one target, and what a mount reads in it.
fn print_order(rt: &HostRuntime, number: u16, target: &Target) -> io::Result<()> {
    let line = target.line;
    // The writer takes its caller's row, since a station has no heap; what it fills is a slice at once.
    let mut row = [0u8; 512];
    match write_order(&mut row, number, &target.star) {
        Ok(packet) => {
            let text = from_utf8(packet).unwrap_or("");
            println!(rt; "{line:>4}  {text}")?;
            let read = read_order(rt.alloc(), packet)?;
            println!(rt; "      reads:{read}")
        }
        Err(refusal) => println!(rt; "{line:>4}  {refusal}"),
    }
}

/// Prints the requests of all targets, numbered from 0.
pub fn print_orders(rt: &HostRuntime, targets: &[Target]) -> io::Result<()> {
    if targets.is_empty() {
        return Ok(());
    }
    println!(rt; "\nWhat is sent to the mount")?;
    for (index, target) in targets.iter().enumerate() {
        // Past 65,535 orders the sheet goes on with the last number.
        let number = u16::try_from(index).unwrap_or(u16::MAX);
        print_order(rt, number, target)?;
    }
    Ok(())
}
