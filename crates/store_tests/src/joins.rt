//! Joined stores, and joined ones of joined ones.
use crate::houses::house;
use crate::shelves::shelf;
use crate::star_rows::three;
use crate::table::holds;
use std::process::Abort;
use std::test::Fail;
use store::joined::Joined;
use store::store::Store;

/// The two as one.
fn join<L: Store + Drop, U: Store + Drop>(lower: L, upper: U) -> Result<Joined<L, U>, Fail> {
    Joined::new(lower, upper).map_err(|_| Fail::new("not joined"))
}

/// Checks that the two are turned down by 13, and that both come back as they were.
fn refused<L: Store + Drop, U: Store + Drop>(
    rt: &impl Abort,
    first: L,
    second: U,
    firsts: &str,
    seconds: &str,
) -> Result<(), Fail> {
    let Err(rejected) = Joined::new(first, second) else {
        return Err(Fail::new("joined"));
    };
    assert!(rt; u8::from(rejected.refusal) == 13);
    let (mut first, mut second) = rejected.given;
    holds(rt, &mut first, firsts)?;
    holds(rt, &mut second, seconds)
}

// A house record and a shelf from 150 to 160, with a gap from 100 to 149.
const GAP: &str = "\
limits 0 160
kind 0 By
kind 99 none
kind 100 none
kind 149 none
kind 150 none
kind 151 In
kind 161 none
read 0 0 By 0
read 2 0 St dome-3
read 3 0 By 0
read 4 1
read 99 1
read 100 1
read 149 1
read 150 1
read 151 0 In 5
read 160 0 St a
read 161 3
read 65535 3
write 1 St x 2
write 99 St x 1
write 100 St x 1
write 149 St x 1
write 150 St x 1
write 151 In -6 0
write 160 St b 2
write 161 St b 3
owner 100 By x 1
owner 151 By 6 2
owner 161 By x 3
text 149 x 1
text 151 7 0
text 160 b 2
read 1 0 St S7
read 151 0 In 7
read 160 0 St a
";

#[test]
fn with_a_gap(rt: HostRuntime) -> Result<(), Fail> {
    let shelf = shelf(rt.alloc(), 150, 160, "151 In 5\n160 St a fixed")?;
    let mut both = join(house()?, shelf)?;
    holds(&rt, &mut both, GAP)
}

// A house record, star rows from 100 to 108, and a shelf from 109 to 65535.
const THREE: &str = "\
limits 0 65535
kind 3 By
kind 99 none
kind 100 St
kind 108 In
kind 109 Bo
kind 110 none
kind 65535 Do
read 3 0 By 0
read 99 1
read 100 0 St Vega
read 105 0 In -324000000
read 108 0 In 324000000
read 109 0 Bo True
read 110 1
read 65535 0 Do 1E+10
write 3 By 1 2
write 99 By 1 1
write 100 St x 2
write 108 In 1 2
write 109 Bo False 0
write 110 Bo False 1
write 65535 Do 0.00001 0
owner 109 Bo true 2
text 65535 -0 0
read 3 0 By 0
read 108 0 In 324000000
read 109 0 Bo False
read 65535 0 Do 0
";

#[test]
fn joined_first(rt: HostRuntime) -> Result<(), Fail> {
    let shelf = shelf(rt.alloc(), 109, 65535, "109 Bo True\n65535 Do 1E10")?;
    let mut all = join(join(house()?, three(rt.alloc())?)?, shelf)?;
    holds(&rt, &mut all, THREE)
}

#[test]
fn joined_second(rt: HostRuntime) -> Result<(), Fail> {
    let shelf = shelf(rt.alloc(), 109, 65535, "109 Bo True\n65535 Do 1E10")?;
    let mut all = join(house()?, join(three(rt.alloc())?, shelf)?)?;
    holds(&rt, &mut all, THREE)
}

#[test]
fn refusals(rt: HostRuntime) -> Result<(), Fail> {
    let heap = rt.alloc();
    let meets = shelf(heap, 99, 160, "151 In 5")?;
    refused(
        &rt,
        house()?,
        meets,
        "read 1 0 St S7",
        "limits 99 160\nread 151 0 In 5",
    )?;
    let above = shelf(heap, 100, 160, "151 In 5")?;
    refused(
        &rt,
        above,
        house()?,
        "limits 100 160",
        "limits 0 99\nread 2 0 St dome-3",
    )?;
    let whole = shelf(heap, 0, 65535, "151 In 5")?;
    refused(
        &rt,
        whole,
        three(heap)?,
        "limits 0 65535",
        "limits 100 108\nread 106 0 St north",
    )?;
    refused(&rt, house()?, house()?, "limits 0 99", "limits 0 99")
}
