//! The stars of all catalogue files.
ghost use Rattle.std.specs.Prelude.{◌≡◌, ◌++◌, ◌≤◌, map, IfOk, Some, Ok, OnOk, vec_len};
ghost use Rattle.std.specs.Option.{option_map};
ghost use Rattle.sky.specs.Stars.{row};
ghost use Rattle.chart.specs.Lines.{lines_of};
ghost use Rattle.chart.specs.Rows.{seen_row, if_new, judged, skipped, named, with_line, charted, unused_at, unused, rows_of};
ghost use Rattle.chart.specs.Troubles.{trouble_text};
ghost use Rattle.chart.specs.declared.chart.RowTrouble.TheVariants.{Fault};

use crate::lines::Lines;
use sky::fault::RowFault;
use sky::names::find;
use sky::rows::read_row;
use sky::star::Star;
use std::alloc::{AllocError, Global};
use std::error::Error;
use std::fmt;

/// Why a row is not used.
#[derive(Clone, Copy, Debug, PartialEq, Eq)]
pub enum RowTrouble {
    /// The row is no star.
    Fault(RowFault),
    /// The name stands in an earlier row, which holds.
    Taken,
}

impl From<RowFault> for RowTrouble {
    ghost from_gives = { λ fault trouble. trouble ≡ Fault fault };

    fn from(fault: RowFault) -> RowTrouble {
        RowTrouble::Fault(fault)
    }
}

/// Writes it as a sentence for a reader.
impl fmt::Display for RowTrouble {
    ghost output = { λ trouble. Some (trouble_text trouble) };

    fn fmt<W: fmt::Write>(&self, f: &mut fmt::Formatter<W>) -> fmt::Result {
        match self {
            RowTrouble::Fault(fault) => write!(f, "{fault}"),
            RowTrouble::Taken => f.write_str("the name stands in an earlier row, which holds"),
        }
    }
}

impl Error for RowTrouble {}

/// A row that is not used, by its line, counted from 1.
#[derive(Clone, Copy, Debug, PartialEq, Eq)]
pub struct UnusedRow {
    pub line: usize,
    pub trouble: RowTrouble,
}

/// The stars of the rows that are used, in order. A name is sought along the list, which the star rows take as it is: a map
/// from names to places would be a second list to keep in step with it.
#[derive(Drop)]
pub struct Chart {
    pub stars: Vec<Star>,
}

/// The star, if its name is new among these stars.
fn keep_new(stars: &[Star], star: Star) -> Result<Star, RowTrouble>
    ensures { seen_row result ≡ if_new (map row stars.now) (Ok (row star)) }
{
    if find(stars, star.name().as_bytes()).is_some() {
        return Err(RowTrouble::Taken);
    }
    Ok(star)
}

/// The star of a row, if its name is new among these stars.
fn judge_row(stars: &[Star], line: &[u8]) -> Result<Star, RowTrouble>
    ensures { seen_row result ≡ judged (map row stars.now) line.now }
{
    let star = read_row(line)?;
    keep_new(stars, star)
}

/// Whether a line is empty or a comment.
fn is_skipped(line: &[u8]) -> bool
    ensures { result ≡ skipped line.now }
{
    matches!(line, [] | [b'#', ..])
}

impl Chart {
    /// The star with this name, if there is one.
    pub fn star(&self, name: &[u8]) -> Option<Star>
        ensures { option_map row result ≡ named name.now (rows_of self.now) }
    {
        let place = find(&self.stars, name)?;
        Some(self.stars[place])
    }

    /// Adds the star of a line, or notes why the row is not used.
    fn add_line(
        &mut self,
        unused: &mut Vec<UnusedRow>,
        number: usize,
        line: &[u8],
    ) -> Result<(), AllocError>
        ensures rows { OnOk result (rows_of self.new ≡ with_line (rows_of self.old) line.now) }
        ensures unused { OnOk result (unused.new.items ≡ unused.old.items ++ unused_at number (rows_of self.old) line.now) }
        ensures grows { OnOk result (vec_len self.old.stars ≤ vec_len self.new.stars) }
    {
        if is_skipped(line) {
            return Ok(());
        }
        match judge_row(&self.stars, line) {
            Ok(star) => self.stars.push(star)?,
            Err(trouble) => unused.push(UnusedRow {
                line: number,
                trouble,
            })?,
        }
        Ok(())
    }

    /// Adds the stars of a file, and tells the rows that are not used.
    pub fn add_rows(&mut self, heap: Global, file: &[u8]) -> Result<Vec<UnusedRow>, AllocError>
        ensures rows { OnOk result (rows_of self.new ≡ charted (rows_of self.old) (lines_of file.now)) }
        ensures unused { IfOk result (λ us. us.items ≡ unused 1 (rows_of self.old) (lines_of file.now)) }
        ensures grows { OnOk result (vec_len self.old.stars ≤ vec_len self.new.stars) }
    {
        let mut unused = Vec::new(heap);
        for (index, line) in Lines::new(file).enumerate() {
            self.add_line(&mut unused, index + 1, line)?;
        }
        Ok(unused)
    }
}
