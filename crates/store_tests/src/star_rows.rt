//! The star rows.
use crate::houses::text;
use crate::table::{comes_back, holds};
use sky::star::Star;
use stars::rows::StarRows;
use std::alloc::Global;
use std::process::Abort;
use std::test::Fail;

/// A star.
fn star(name: &str, ascension: i32, declination: i32) -> Result<Star, Fail> {
    Star::new(text(name.as_bytes())?, ascension, declination).map_err(|_| Fail::new("no star"))
}

/// The star rows of these stars.
fn rows(stars: Vec<Star>) -> Result<StarRows, Fail> {
    StarRows::new(stars).map_err(|_| Fail::new("no rows"))
}

/// Three stars, two of them at the ends of both angles.
pub fn three(heap: Global) -> Result<StarRows, Fail> {
    let vega = star("Vega", 1005845042, 139621284)?;
    let south = star("south", 0, -324000000)?;
    let north = star("north", 1295999999, 324000000)?;
    rows(vec![in heap; vega, south, north]?)
}

/// So many stars of one name.
fn many(heap: Global, count: u16) -> Result<Vec<Star>, Fail> {
    (0..count).map(|_| star("x", 1, -1)).try_collect(heap)
}

const TABLE: &str = "\
limits 100 108
kind 99 none
kind 100 St
kind 101 In
kind 102 In
kind 103 St
kind 107 In
kind 108 In
kind 109 none
read 0 3
read 99 3
read 100 0 St Vega
read 101 0 In 1005845042
read 102 0 In 139621284
read 103 0 St south
read 104 0 In 0
read 105 0 In -324000000
read 106 0 St north
read 107 0 In 1295999999
read 108 0 In 324000000
read 109 3
read 65535 3
write 99 St x 3
write 100 St x 2
write 101 In 1 2
write 101 By 1 2
write 108 In 1 2
write 109 In 1 3
owner 100 St x 2
owner 101 In x 2
owner 109 In x 3
text 105 0 2
text 105 x 2
text 109 0 3
read 100 0 St Vega
read 105 0 In -324000000
";

#[test]
fn table(rt: HostRuntime) -> Result<(), Fail> {
    let mut rows = three(rt.alloc())?;
    holds(&rt, &mut rows, TABLE)
}

/// Checks that the star rows of so many stars answer as the table says.
fn counted(rt: &impl Abort, heap: Global, count: u16, table: &str) -> Result<(), Fail> {
    let mut rows = rows(many(heap, count)?)?;
    holds(rt, &mut rows, table)
}

#[test]
fn one_row(rt: HostRuntime) -> Result<(), Fail> {
    counted(
        &rt,
        rt.alloc(),
        1,
        "limits 100 102\nread 102 0 In -1\nread 103 3",
    )
}

#[test]
fn most_rows(rt: HostRuntime) -> Result<(), Fail> {
    counted(
        &rt,
        rt.alloc(),
        20_000,
        "limits 100 60099\nread 60097 0 St x\nread 60098 0 In 1\nread 60099 0 In -1\nread 60100 3",
    )
}

/// Checks that so many rows are turned down by 13 and come back.
fn refused(rt: &impl Abort, heap: Global, count: u16) -> Result<(), Fail> {
    comes_back(rt, StarRows::new(many(heap, count)?), usize::from(count))
}

#[test]
fn refusals(rt: HostRuntime) -> Result<(), Fail> {
    refused(&rt, rt.alloc(), 0)?;
    refused(&rt, rt.alloc(), 20_001)
}
