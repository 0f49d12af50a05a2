//! The sheet as it is printed.
use crate::texts::Printable;
use crate::wishes::{Miss, Target, Wishes};
use chart::chart::UnusedRow;
use stars::rows::StarRows;
use std::alloc::{AllocError, Global};
use std::io;
use store::store::Store;

/// The head of the column of names.
const NAME: &str = "name (St)";

/// Prints what became of the rows of a file: how many are used, and which are not.
pub fn print_tally(
    rt: &HostRuntime,
    file: &str,
    used: usize,
    unused: &[UnusedRow],
) -> io::Result<()> {
    let others = unused.len();
    println!(rt; "Catalogue {file}: rows used {used}, rows not used {others}")?;
    for UnusedRow { line, trouble } in unused {
        println!(rt; "line {line:>4}  {trouble}")?;
    }
    Ok(())
}

/// How many characters the longest name of a target has, at least as many as the head of its column.
fn name_width(heap: Global, targets: &[Target]) -> Result<usize, AllocError> {
    let mut width = NAME.len();
    for target in targets {
        let name = Printable(&target.star.name()).to_string(heap)?;
        width = width.max(name.as_str().chars().count());
    }
    Ok(width)
}

/// The line of the first of these targets that is the same star, unless that is this one. (A search, and no map: a night has
/// few wishes.)
fn first_line(targets: &[Target], target: &Target) -> Option<usize> {
    targets
        .iter()
        .find(|other| other.row == target.row)
        .map(|first| first.line)
        .filter(|line| *line != target.line)
}

/// The index at which the star rows hold the name of a star; the two angles follow.
fn first_index(row: usize) -> u16 {
    let index = row.saturating_mul(3).saturating_add(100);
    // No row of star rows is as far out.
    u16::try_from(index).unwrap_or(u16::MAX)
}

/// The value that the star rows hold at an index, in its spelling.
fn held(heap: Global, rows: &StarRows, index: u16) -> Result<String, AllocError> {
    match rows.read(index) {
        Ok(value) => Printable(&value.spelling()).to_string(heap),
        Err(code) => format!(in heap; "code {}", u8::from(code)),
    }
}

/// Prints the three values that go to the mount as the star rows hold them, and the coordinates as people write them.
fn print_target(
    rt: &HostRuntime,
    rows: &StarRows,
    target: &Target,
    width: usize,
) -> io::Result<()> {
    let heap = rt.alloc();
    let line = target.line;
    let index = first_index(target.row);
    let name = held(heap, rows, index)?;
    let ascension = held(heap, rows, index.saturating_add(1))?;
    let declination = held(heap, rows, index.saturating_add(2))?;
    let hours = target.star.hours();
    let degrees = target.star.degrees();
    print!(rt;
        "{line:>4}  {index:>5}  {name:<width$}  {ascension:>10}  {hours}  {declination:>10}  {degrees}"
    )
}

/// Prints the targets.
fn print_targets(rt: &HostRuntime, rows: &StarRows, targets: &[Target]) -> io::Result<()> {
    let width = name_width(rt.alloc(), targets)?;
    println!(rt; "line  index  {NAME:<width$}  right ascension (In)       declination (In)")?;
    for target in targets {
        print_target(rt, rows, target, width)?;
        match first_line(targets, target) {
            Some(line) => println!(rt; "  again, as in line {line}")?,
            None => println!(rt; "")?,
        }
    }
    Ok(())
}

/// Prints the targets that are ready, with what the star rows hold of them.
pub fn print_ready(rt: &HostRuntime, rows: &StarRows, targets: &[Target]) -> io::Result<()> {
    if targets.is_empty() {
        return Ok(());
    }
    println!(rt; "\nReady for the mount")?;
    print_targets(rt, rows, targets)
}

/// Prints the wishes that are not ready, and how many there are of both.
pub fn print_rest(rt: &HostRuntime, wishes: &Wishes) -> io::Result<()> {
    let ready = wishes.targets.len();
    let others = wishes.misses.len();
    if others > 0 {
        println!(rt; "\nNot ready")?;
        for Miss { line, trouble } in &wishes.misses {
            println!(rt; "line {line:>4}  {trouble}")?;
        }
    }
    println!(rt; "\nReady {ready}, not ready {others}")
}
