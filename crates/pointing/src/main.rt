//! Tonight's target sheet: which stars that the guides want to show are ready for the mount.
//!
//!     pointing CATALOGUE .. < WISHES
//!
//! A catalogue file has one star on a line, `NAME,ASCENSION,DECLINATION`, with both angles in milliarcseconds. Lines
//! that begin with `#` are comments. WISHES has one name on a line. Empty lines are skipped in both. Each row and each
//! wish that cannot be used is told with its line and the reason.
#![tactic(auto)]

mod orders;
mod sheet;
mod texts;
mod wishes;

use anyhow::{anyhow, ensure};
use chart::chart::Chart;
use orders::print_orders;
use sheet::{print_ready, print_rest, print_tally};
use stars::rows::StarRows;
use std::io::Read;
use std::process::ExitCode;
use std::{env, fs, io};
use wishes::Wishes;

/// A catalogue file: its name, and what it holds.
#[derive(Drop)]
struct File {
    name: String,
    bytes: Vec<u8>,
}

/// Reads one catalogue file.
fn read_file(rt: &HostRuntime, name: String) -> anyhow::Result<File> {
    let bytes = fs::read(rt, name.as_str()).map_err(|e| anyhow!("cannot read {name}: {e}"))?;
    Ok(File { name, bytes })
}

/// Reads the catalogue files that the arguments name.
fn read_files(rt: &HostRuntime) -> anyhow::Result<Vec<File>> {
    let names = env::args(rt)?.skip(1);
    let files: Vec<File> = names
        .map(|name| read_file(rt, name))
        .try_collect(rt.alloc())?;
    ensure!(
        !files.is_empty(),
        "no catalogue is given; call it as: pointing CATALOGUE .. < WISHES"
    );
    Ok(files)
}

/// Reads standard input to its end.
fn read_input(rt: &HostRuntime) -> io::Result<Vec<u8>> {
    let mut bytes = Vec::new(rt.alloc());
    rt.stdin().read_to_end(&mut bytes)?;
    Ok(bytes)
}

/// The stars of all files. Prints what became of the rows of each.
fn chart_of(rt: &HostRuntime, files: &[File]) -> io::Result<Chart> {
    let heap = rt.alloc();
    let stars = Vec::new(heap);
    let mut chart = Chart { stars };
    for file in files {
        let before = chart.stars.len();
        let unused = chart.add_rows(heap, &file.bytes)?;
        let used = chart.stars.len() - before;
        print_tally(rt, file.name.as_str(), used, &unused)?;
    }
    Ok(chart)
}

/// Prints what goes to the mount, from the stars as star rows. With no star there is nothing to print.
fn print_night(rt: &HostRuntime, chart: Chart, wishes: &Wishes) -> anyhow::Result<()> {
    let count = chart.stars.len();
    if count == 0 {
        return Ok(());
    }
    let rows = StarRows::new(chart.stars).map_err(|_| anyhow!(
        "{count} stars are too many: star rows hold up to 20000"
    ))?;
    print_ready(rt, &rows, &wishes.targets)?;
    print_orders(rt, &wishes.targets)?;
    Ok(())
}

/// Reads everything, so that nothing is printed if a file cannot be read; then prints the sheet.
fn run(rt: &HostRuntime) -> anyhow::Result<()> {
    let files = read_files(rt)?;
    let input = read_input(rt)?;
    let chart = chart_of(rt, &files)?;
    let wishes = Wishes::judge(rt.alloc(), &chart, &input)?;
    print_night(rt, chart, &wishes)?;
    print_rest(rt, &wishes)?;
    Ok(())
}

fn main(rt: HostRuntime) -> ExitCode {
    match run(&rt) {
        Ok(()) => ExitCode::SUCCESS,
        Err(e) => {
            let _ = eprintln!(rt; "pointing: {e}");
            ExitCode::FAILURE
        }
    }
}
