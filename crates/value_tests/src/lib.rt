//! A table of value texts: what each reads as, near every limit, and what is not read at all.
#![tactic(auto)]

#[cfg(test)]
mod tests {
    use protocol::kind::Kind;
    use std::process::Abort;
    use std::test::Fail;
    use value::read::read_value;

    // A type, a text, and the one spelling of what it reads as, or `none`.
    const TABLE: &str = "\
By 0 0
By 255 255
By 256 none
By -1 none
USh 65535 65535
USh 65536 none
USh -1 none
Sh -32768 -32768
Sh 32767 32767
Sh -32769 none
Sh 32768 none
In -2147483648 -2147483648
In 2147483647 2147483647
In -2147483649 none
In 2147483648 none
Lo -922337236854775808 -922337236854775808
Lo 922337236854775807 922337236854775807
Lo -922337236854775809 none
Lo 922337236854775808 none
Lo 9223372036854775807 none
Lo 99999999999999999999999999999999999999 none
In - none
In +1 none
In 00 none
In 007 none
In -0 none
In -01 none
In 1. none
In 1E2 none
Si 3.4028235E+38 3.4028235E+38
Si -3.4028235E+38 -3.4028235E+38
Si 3.4028236E+38 none
Si 3.40282350000000001E+38 none
Si 1.401298E-45 1.401298E-45
Si -1.401298E-45 -1.401298E-45
Si 1.401297E-45 none
Si 1.40129799999999999E-45 none
Si -0 0
Si -0.000E-999 0
Si 000 0
Do 1.79769313486231570E+308 1.7976931348623157E+308
Do 1.79769313486231571E+308 none
Do -1.79769313486231571E+308 none
Do 4.94065645841246544E-324 4.94065645841246544E-324
Do -4.94065645841246544E-324 -4.94065645841246544E-324
Do 4.94065645841246543E-324 none
Do 1E309 none
Do 1E-325 none
Do 1E+308 1E+308
Do 5E-324 5E-324
Do 2.2E17 2.2E+17
Do 220000000000000000 2.2E+17
Do 0.00001 1E-05
Do 0.0001 0.0001
Do 9999999999.0 9999999999
Do 10000000000 1E+10
Do 0084.830 84.83
Do 123456789.25E0 123456789.25
Do 1234567890123456780000 1.23456789012345678E+21
Do 8936E+007 8.936E+10
Do -12.50E-003 -0.0125
Do - none
Do +1 none
Do 1. none
Do .5 none
Do 1e5 none
Do 1E none
Do 1E+ none
Do 1E1234 none
Do 1.5.5 none
Do 1234567890123456789 none
Do 0.1234567890123456789 none
Bo True True
Bo False False
Bo true none
St Vega Vega
St étoile étoile
St a:b none
St {a none
St a} none
Do 1000000000000000000000000000000000000000 1E+39
";

    const THREE: &str = "a row has three words";

    fn reads(rt: &impl Abort, row: &str) -> Result<(), Fail> {
        let mut words = row.split(' ');
        let kind = words.next().ok_or(THREE)?.parse::<Kind>()?;
        let text = words.next().ok_or(THREE)?;
        let spelling = words.next().ok_or(THREE)?;
        match read_value(kind, text.as_bytes()) {
            Some(value) => assert!(rt; value.spelling().as_str() == spelling),
            None => assert!(rt; spelling == "none"),
        }
        Ok(())
    }

    #[test]
    fn table(rt: HostRuntime) -> Result<(), Fail> {
        for row in TABLE.lines() {
            reads(&rt, row)?;
        }
        Ok(())
    }

    // Bytes that no row of a table can hold.
    #[test]
    fn odd_bytes(rt: HostRuntime) {
        assert!(rt; read_value(Kind::St, b"\0").is_some());
        assert!(rt; read_value(Kind::In, b"").is_none());
        assert!(rt; read_value(Kind::Do, b"").is_none());
        assert!(rt; read_value(Kind::Bo, b"").is_none());
        assert!(rt; read_value(Kind::St, b"").is_none());
        assert!(rt; read_value(Kind::In, b" 1").is_none());
        assert!(rt; read_value(Kind::In, b"1\0").is_none());
        assert!(rt; read_value(Kind::Do, b"1\0").is_none());
    }

    #[test]
    fn not_utf8(rt: HostRuntime) {
        assert!(rt; read_value(Kind::In, b"\xff").is_none());
        assert!(rt; read_value(Kind::Do, b"\xc0\xb1").is_none());
        assert!(rt; read_value(Kind::St, b"\xc3").is_none());
        assert!(rt; read_value(Kind::St, b"\xed\xa0\x80").is_none());
        assert!(rt; read_value(Kind::St, b"\xf4\x90\x80\x80").is_none());
    }

    #[test]
    fn long_texts(rt: HostRuntime) {
        assert!(rt; read_value(Kind::St, &[b'a'; 40]).is_some());
        assert!(rt; read_value(Kind::St, &[b'a'; 41]).is_none());
        assert!(rt; read_value(Kind::St, &[b'a'; 1000]).is_none());
        assert!(rt; read_value(Kind::Do, &[b'0'; 40]).is_some());
        assert!(rt; read_value(Kind::Do, &[b'0'; 41]).is_none());
        assert!(rt; read_value(Kind::Do, &[b'0'; 1000]).is_none());
    }
}
