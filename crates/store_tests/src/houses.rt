//! The house record.
use crate::table::holds;
use protocol::text::Text;
use std::test::Fail;
use store::house::HouseRecord;

/// The text of these bytes.
pub fn text(bytes: &[u8]) -> Result<Text, Fail> {
    Text::new(bytes).ok_or_else(|| Fail::new("no text"))
}

/// The house record with the serial S7 and the identifier dome-3.
pub fn house() -> Result<HouseRecord, Fail> {
    Ok(HouseRecord::new(text(b"S7")?, text(b"dome-3")?))
}

const TABLE: &str = "\
limits 0 99
kind 0 By
kind 1 St
kind 2 St
kind 3 By
kind 4 none
kind 99 none
kind 100 none
read 0 0 By 0
read 1 0 St S7
read 2 0 St dome-3
read 3 0 By 0
read 4 1
read 99 1
read 100 3
read 65535 3
write 0 By 0 2
write 0 In 0 2
write 1 St S8 2
write 2 St dome-4 2
write 3 By 1 2
write 4 By 0 1
write 99 St x 1
write 100 St x 3
write 65535 By 0 3
owner 1 St S8 2
owner 1 By x 2
owner 4 By x 1
owner 100 By x 3
text 0 0 2
text 0 x 2
text 4 x 1
text 100 x 3
read 0 0 By 0
read 1 0 St S7
read 2 0 St dome-3
read 3 0 By 0
";

#[test]
fn table(rt: HostRuntime) -> Result<(), Fail> {
    let mut house = house()?;
    holds(&rt, &mut house, TABLE)
}
