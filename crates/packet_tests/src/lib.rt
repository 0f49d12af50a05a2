//! A table of packets: the ground on which each is refused with the field at fault, for each field at which that can
//! arise, or that it is read.
#![tactic(auto)]

#[cfg(test)]
mod tests {
    use packet::packet::read_packet;
    use protocol::refusal::Refusal;
    use std::process::Abort;
    use std::test::Fail;

    // A packet, the number of its refusal, and the field at fault; 0 and 0 where it is read.
    const TABLE: &str = "\
{1.2:R:7:1:100} 6 0
{:R:7:1:100} 6 0
{1.1:Q:7:1:100} 6 1
{1.1:R:07:1:100} 6 2
{1.1:R:65536:1:100} 6 2
{1.1:R:7:256:100} 6 3
{1.1:R:7:x:100} 6 3
{1.1} 6 1
{1.1:R} 6 2
{1.1:R:7} 6 3
{} 6 0
{1.0:R:0:3:2:3} 6 0
{1.0:Q:x:3:2:3} 6 0
{1.1:R:7:0:100} 7 3
{1.1:R:7:4:100} 7 3
{1.1:R:7:255:100} 7 3
{1.1:R:7:1} 8 4
{1.1:R:7:1:65536:1:1:1:1:1:1:1:1:1} 8 4
{1.1:R:7:1:1:65536:1:1:1:1:1:1:1:1} 8 5
{1.1:R:7:1:1:1:65536:1:1:1:1:1:1:1} 8 6
{1.1:R:7:1:1:1:1:65536:1:1:1:1:1:1} 8 7
{1.1:R:7:1:1:1:1:1:65536:1:1:1:1:1} 8 8
{1.1:R:7:1:1:1:1:1:1:65536:1:1:1:1} 8 9
{1.1:R:7:1:1:1:1:1:1:1:65536:1:1:1} 8 10
{1.1:R:7:1:1:1:1:1:1:1:1:65536:1:1} 8 11
{1.1:R:7:1:1:1:1:1:1:1:1:1:65536:1} 8 12
{1.1:R:7:1:1:1:1:1:1:1:1:1:1:65536} 8 13
{1.1:R:7:1:1:1:1:1:1:1:1:1:1:1:1} 8 14
{1.0:R:65535:2} 8 4
{1.0:R:65535:2:x:a} 8 4
{1.0:R:65535:2:1:} 8 5
{1.0:R:65535:2:1:a:x:a} 8 6
{1.0:R:65535:2:1:a:1:} 8 7
{1.0:R:65535:2:1:a:1:a:x:a} 8 8
{1.0:R:65535:2:1:a:1:a:1:} 8 9
{1.0:R:65535:2:1:a:1:a:1:a:x:a} 8 10
{1.0:R:65535:2:1:a:1:a:1:a:1:} 8 11
{1.0:R:65535:2:1:a:1:a:1:a:1:a:x:a} 8 12
{1.0:R:65535:2:1:a:1:a:1:a:1:a:1:} 8 13
{1.0:R:65535:2:1:a:1:a:1:a:1:a:1:a:x:a} 8 14
{1.0:R:65535:2:1:a:1:a:1:a:1:a:1:a:1:} 8 15
{1.0:R:65535:2:1:a:1:a:1:a:1:a:1:a:1:a:x:a} 8 16
{1.0:R:65535:2:1:a:1:a:1:a:1:a:1:a:1:a:1:} 8 17
{1.0:R:65535:2:1:a:1:a:1:a:1:a:1:a:1:a:1:a:x:a} 8 18
{1.0:R:65535:2:1:a:1:a:1:a:1:a:1:a:1:a:1:a:1:} 8 19
{1.0:R:65535:2:1:a:1:a:1:a:1:a:1:a:1:a:1:a:1:a:x:a} 8 20
{1.0:R:65535:2:1:a:1:a:1:a:1:a:1:a:1:a:1:a:1:a:1:} 8 21
{1.0:R:65535:2:1:a:1:a:1:a:1:a:1:a:1:a:1:a:1:a:1:a:x:a} 8 22
{1.0:R:65535:2:1:a:1:a:1:a:1:a:1:a:1:a:1:a:1:a:1:a:1:} 8 23
{1.0:R:65535:2:1:a:1:a:1:a:1:a:1:a:1:a:1:a:1:a:1:a:1:a:1:a} 8 24
{1.0:R:65535:2:1} 8 5
{1.0:A:7:2} 8 4
{1.0:A:7:2:4} 8 4
{1.0:A:7:2:0:4} 8 5
{1.0:A:7:2:0:0:4} 8 6
{1.0:A:7:2:0:0:0:4} 8 7
{1.0:A:7:2:0:0:0:0:4} 8 8
{1.0:A:7:2:0:0:0:0:0:4} 8 9
{1.0:A:7:2:0:0:0:0:0:0:4} 8 10
{1.0:A:7:2:0:0:0:0:0:0:0:4} 8 11
{1.0:A:7:2:0:0:0:0:0:0:0:0:4} 8 12
{1.0:A:7:2:0:0:0:0:0:0:0:0:0:4} 8 13
{1.0:A:7:2:0:0:0:0:0:0:0:0:0:0:0} 8 14
{1.1:A:7:1} 8 4
{1.1:A:7:1:4:By:1} 8 4
{1.1:A:7:1:0:Nil:0} 8 5
{1.1:A:7:1:0:By:256} 8 6
{1.1:A:7:1:0:By:1:4:By:1} 8 7
{1.1:A:7:1:0:By:1:0:Nil:0} 8 8
{1.1:A:7:1:0:By:1:0:By:256} 8 9
{1.1:A:7:1:0:By:1:0:By:1:4:By:1} 8 10
{1.1:A:7:1:0:By:1:0:By:1:0:Nil:0} 8 11
{1.1:A:7:1:0:By:1:0:By:1:0:By:256} 8 12
{1.1:A:7:1:0:By:1:0:By:1:0:By:1:4:By:1} 8 13
{1.1:A:7:1:0:By:1:0:By:1:0:By:1:0:Nil:0} 8 14
{1.1:A:7:1:0:By:1:0:By:1:0:By:1:0:By:256} 8 15
{1.1:A:7:1:0:By:1:0:By:1:0:By:1:0:By:1:4:By:1} 8 16
{1.1:A:7:1:0:By:1:0:By:1:0:By:1:0:By:1:0:Nil:0} 8 17
{1.1:A:7:1:0:By:1:0:By:1:0:By:1:0:By:1:0:By:256} 8 18
{1.1:A:7:1:0:By:1:0:By:1:0:By:1:0:By:1:0:By:1:4:By:1} 8 19
{1.1:A:7:1:0:By:1:0:By:1:0:By:1:0:By:1:0:By:1:0:Nil:0} 8 20
{1.1:A:7:1:0:By:1:0:By:1:0:By:1:0:By:1:0:By:1:0:By:256} 8 21
{1.1:A:7:1:0:By:1:0:By:1:0:By:1:0:By:1:0:By:1:0:By:1:4:By:1} 8 22
{1.1:A:7:1:0:By:1:0:By:1:0:By:1:0:By:1:0:By:1:0:By:1:0:Nil:0} 8 23
{1.1:A:7:1:0:By:1:0:By:1:0:By:1:0:By:1:0:By:1:0:By:1:0:By:256} 8 24
{1.1:A:7:1:0:By:1:0:By:1:0:By:1:0:By:1:0:By:1:0:By:1:0:By:1:4:By:1} 8 25
{1.1:A:7:1:0:By:1:0:By:1:0:By:1:0:By:1:0:By:1:0:By:1:0:By:1:0:Nil:0} 8 26
{1.1:A:7:1:0:By:1:0:By:1:0:By:1:0:By:1:0:By:1:0:By:1:0:By:1:0:By:256} 8 27
{1.1:A:7:1:0:By:1:0:By:1:0:By:1:0:By:1:0:By:1:0:By:1:0:By:1:0:By:1:4:By:1} 8 28
{1.1:A:7:1:0:By:1:0:By:1:0:By:1:0:By:1:0:By:1:0:By:1:0:By:1:0:By:1:0:Nil:0} 8 29
{1.1:A:7:1:0:By:1:0:By:1:0:By:1:0:By:1:0:By:1:0:By:1:0:By:1:0:By:1:0:By:256} 8 30
{1.1:A:7:1:0:By:1:0:By:1:0:By:1:0:By:1:0:By:1:0:By:1:0:By:1:0:By:1:0:By:1:4:By:1} 8 31
{1.1:A:7:1:0:By:1:0:By:1:0:By:1:0:By:1:0:By:1:0:By:1:0:By:1:0:By:1:0:By:1:0:Nil:0} 8 32
{1.1:A:7:1:0:By:1:0:By:1:0:By:1:0:By:1:0:By:1:0:By:1:0:By:1:0:By:1:0:By:1:0:By:256} 8 33
{1.1:A:7:1:0:By:1:0:By:1:0:By:1:0:By:1:0:By:1:0:By:1:0:By:1:0:By:1:0:By:1:0:By:1:0:By:1} 8 34
{1.1:A:7:1:1:By:1} 8 5
{1.1:A:7:1:1:Nil:1} 8 6
{1.1:A:7:1:1:Nil} 8 6
{1.1:A:7:1:0} 8 5
{1.1:R:0:3:3:2} 8 4
{1.1:R:0:3:2} 8 5
{1.1:R:0:3:2:4} 8 5
{1.1:R:0:3:2:3:4} 8 6
{1.1:R:0:3} 8 4
{1.1:A:0:3} 8 4
{1.1:A:0:3:4:St:a} 8 4
{1.1:A:0:3:0:Nil:0} 8 5
{1.1:A:0:3:0:By:x} 8 6
{1.1:A:0:3:0:By:1} 8 7
{1.1:A:0:3:0:By:1:4:By:1} 8 7
{1.1:A:0:3:0:By:1:0:Xx:1} 8 8
{1.1:A:0:3:0:By:1:1:Nil:1} 8 9
{1.1:A:0:3:0:By:1:1:Nil:0:0:By:1} 8 10
{1.1:R:7:1:100:101} 0 0
{1.0:R:65535:2:100:Vega:100:Vega:100:Vega:100:Vega:100:Vega:100:Vega:100:Vega:100:Vega:100:Vega:100:Vega} 0 0
{1.1:R:0:3:2:3} 0 0
{1.1:A:7:1:0:Si:84.830:1:Nil:0} 0 0
{1.0:A:7:2:0:1:2:3} 0 0
{1.1:A:0:3:0:St:x:3:Nil:0} 0 0
";

    fn is_ground(rt: &impl Abort, refusal: Refusal, number: &str, field: &str) -> Result<(), Fail> {
        assert_eq!(rt; u8::from(refusal), number.parse::<u8>()?);
        assert_eq!(rt; refusal.field(), Some(field.parse::<u8>()?));
        Ok(())
    }

    fn reads(rt: &impl Abort, row: &str) -> Result<(), Fail> {
        let few = || Fail::new("a row has three words");
        let (bytes, ground) = row.split_once(' ').ok_or_else(few)?;
        let (number, field) = ground.split_once(' ').ok_or_else(few)?;
        match read_packet(bytes.as_bytes()) {
            Ok(_) => {
                assert!(rt; number == "0");
                Ok(())
            },
            Err(refusal) => is_ground(rt, refusal, number, field),
        }
    }

    #[test]
    fn table(rt: HostRuntime) -> Result<(), Fail> {
        for row in TABLE.lines() {
            reads(&rt, row)?;
        }
        Ok(())
    }

    fn refused(rt: &impl Abort, bytes: &[u8], number: u8) -> Result<(), Fail> {
        let refusal = read_packet(bytes).err().ok_or_else(|| Fail::new("read"))?;
        assert_eq!(rt; u8::from(refusal), number);
        Ok(())
    }

    // Too long, not framed and not UTF-8, each before what comes later.
    #[test]
    fn frames(rt: HostRuntime) -> Result<(), Fail> {
        refused(&rt, &[b'a'; 513], 3)?;
        refused(&rt, &[b'a'; 512], 4)?;
        refused(&rt, b"", 4)?;
        refused(&rt, b"{", 4)?;
        refused(&rt, b"{1.1:R:7:1:100", 4)?;
        refused(&rt, b"{1.1:R:7:{:100}", 4)?;
        refused(&rt, b"{\xff}}", 4)?;
        refused(&rt, b"{\xff}", 5)?;
        refused(&rt, b"{1.1:R:7:2:1:\xed\xa0\x80}", 5)
    }
}
