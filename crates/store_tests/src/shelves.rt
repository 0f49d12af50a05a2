//! The shelf.
use crate::table::{Row, comes_back, holds};
use shelf::shelf::Shelf;
use shelf::slot::Slot;
use std::alloc::{AllocError, Global};
use std::process::Abort;
use std::test::Fail;
use value::value::Value;

/// The slot of a row `INDEX TYPE TEXT` or `INDEX TYPE TEXT fixed`.
fn slot(line: &str) -> Result<Slot, Fail> {
    let mut row = Row::new(line);
    let index = row.number()?;
    let value = row.value()?;
    Ok(Slot::new(index, value, row.next_word().is_some()))
}

/// The slots of a table.
fn slots(heap: Global, table: &str) -> Result<Vec<Slot>, Fail> {
    table.lines().map(|line| slot(line)).try_collect(heap)
}

/// The shelf of a table.
pub fn shelf(heap: Global, low: u16, high: u16, table: &str) -> Result<Shelf, Fail> {
    Shelf::new(low, high, slots(heap, table)?).map_err(|_| Fail::new("no shelf"))
}

/// Checks that a shelf of the slots is turned down and that all of them come back.
fn turned_down(rt: &impl Abort, low: u16, high: u16, slots: Vec<Slot>) -> Result<(), Fail> {
    let count = slots.len();
    comes_back(rt, Shelf::new(low, high, slots), count)
}

/// Checks that a shelf of the table is turned down.
fn refused(rt: &impl Abort, heap: Global, low: u16, high: u16, table: &str) -> Result<(), Fail> {
    turned_down(rt, low, high, slots(heap, table)?)
}

/// So many slots with the indices from 0 on.
fn run(heap: Global, count: u16) -> Result<Vec<Slot>, AllocError> {
    (0..count)
        .map(|index| Slot::new(index, Value::By(0), false))
        .collect(heap)
}

const SLOTS: &str = "\
100 Bo True
101 In -2147483648
102 Sh 32767
103 USh 65535
104 Lo 922337236854775807
106 Si 1.401298E-45
107 Do 1.7976931348623157E+308
108 By 255
109 St Vega
200 In 7 fixed
";

const TABLE: &str = "\
limits 100 200
kind 99 none
kind 100 Bo
kind 101 In
kind 102 Sh
kind 103 USh
kind 104 Lo
kind 105 none
kind 106 Si
kind 107 Do
kind 108 By
kind 109 St
kind 110 none
kind 199 none
kind 200 In
kind 201 none
read 0 3
read 99 3
read 100 0 Bo True
read 101 0 In -2147483648
read 102 0 Sh 32767
read 103 0 USh 65535
read 104 0 Lo 922337236854775807
read 105 1
read 106 0 Si 1.401298E-45
read 107 0 Do 1.7976931348623157E+308
read 108 0 By 255
read 109 0 St Vega
read 199 1
read 200 0 In 7
read 201 3
read 65535 3
write 99 Bo False 3
write 100 Bo False 0
write 101 In 2147483647 0
write 102 Sh -32768 0
write 103 USh 0 0
write 104 Lo -922337236854775808 0
write 105 By 1 1
write 106 Si 3.4028235E+38 0
write 107 Do -4.94065645841246544E-324 0
write 108 By 0 0
write 109 St étoile 0
write 200 In 8 2
write 201 In 8 3
read 100 0 Bo False
read 101 0 In 2147483647
read 102 0 Sh -32768
read 103 0 USh 0
read 104 0 Lo -922337236854775808
read 105 1
read 106 0 Si 3.4028235E+38
read 107 0 Do -4.94065645841246544E-324
read 108 0 By 0
read 109 0 St étoile
read 200 0 In 7
write 100 By 1 2
write 101 Lo 1 2
write 102 USh 1 2
write 103 Sh 1 2
write 104 In 1 2
write 106 Do 1 2
write 107 Si 1 2
write 108 USh 1 2
write 109 Bo True 2
write 200 St x 2
read 100 0 Bo False
read 109 0 St étoile
owner 99 By x 3
owner 105 By x 1
owner 105 By 1 1
owner 108 By 256 2
owner 108 USh 7 2
owner 108 By 007 2
owner 108 By 7 0
owner 200 In 8 2
read 108 0 By 7
text 99 x 3
text 105 x 1
text 108 300 2
text 108 8 0
text 109 300 0
text 107 0084.830 0
text 200 8 2
text 201 8 3
read 107 0 Do 84.83
read 108 0 By 8
read 109 0 St 300
read 200 0 In 7
";

#[test]
fn table(rt: HostRuntime) -> Result<(), Fail> {
    let mut shelf = shelf(rt.alloc(), 100, 200, SLOTS)?;
    holds(&rt, &mut shelf, TABLE)
}

#[test]
fn one_element(rt: HostRuntime) -> Result<(), Fail> {
    let mut low = shelf(rt.alloc(), 0, 0, "0 By 1")?;
    holds(
        &rt,
        &mut low,
        "limits 0 0\nread 0 0 By 1\nread 1 3\nwrite 0 By 2 0\nread 0 0 By 2",
    )?;
    let mut high = shelf(rt.alloc(), 65535, 65535, "65535 By 1 fixed")?;
    holds(
        &rt,
        &mut high,
        "limits 65535 65535\nread 65534 3\nread 65535 0 By 1\nwrite 65535 By 2 2",
    )
}

#[test]
fn refusals(rt: HostRuntime) -> Result<(), Fail> {
    let heap = rt.alloc();
    refused(&rt, heap, 100, 200, "")?;
    refused(&rt, heap, 100, 99, "100 By 0")?;
    refused(&rt, heap, 101, 100, "100 By 0\n101 By 0")?;
    refused(&rt, heap, 100, 200, "99 By 0\n100 By 0")?;
    refused(&rt, heap, 100, 200, "200 By 0\n201 By 0")?;
    refused(&rt, heap, 100, 200, "100 By 0\n100 By 0")?;
    refused(&rt, heap, 100, 200, "101 By 0\n100 By 0")?;
    refused(&rt, heap, 100, 200, "100 By 0\n102 By 0\n101 By 0")
}

#[test]
fn counts(rt: HostRuntime) -> Result<(), Fail> {
    assert!(rt; Shelf::new(0, 999, run(rt.alloc(), 256)?).is_ok());
    turned_down(&rt, 0, 999, run(rt.alloc(), 257)?)
}
