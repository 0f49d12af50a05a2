//! Lists of calls.
use crate::shelves::shelf;
use protocol::code::Code;
use std::test::Fail;
use store::runs::run;
use store::step::{Answer, Step};
use value::value::Value;

/// What an answer tells: the code and, of a By that was found, its number. The test's values are such pairs of numbers, as the
/// protocol has them.
fn told(answer: &Answer) -> (u8, u8) {
    match answer {
        Ok(Some(Value::By(found))) => (u8::from(Code::Done), *found),
        Ok(_) => (u8::from(Code::Done), 0),
        Err(code) => (u8::from(*code), 0),
    }
}

#[test]
fn run_in_order(rt: HostRuntime) -> Result<(), Fail> {
    let mut shelf = shelf(rt.alloc(), 10, 20, "10 By 1\n12 By 2\n20 By 3 fixed")?;
    let steps = [
        Step::Read(10),
        Step::Write(10, Value::By(7)),
        Step::Write(12, Value::USh(8)),
        Step::Write(20, Value::By(9)),
        Step::Write(21, Value::By(9)),
        Step::Write(11, Value::By(9)),
        Step::Read(9),
        Step::Read(10),
        Step::Read(11),
        Step::Read(12),
        Step::Read(20),
    ];
    let expected = [
        (0, 1),
        (0, 0),
        (2, 0),
        (2, 0),
        (3, 0),
        (1, 0),
        (3, 0),
        (0, 7),
        (1, 0),
        (0, 2),
        (0, 3),
    ];
    let answers = run(rt.alloc(), &mut shelf, &steps)?;
    assert!(rt; answers.len() == expected.len());
    for (answer, pair) in answers.iter().zip(expected.iter()) {
        assert!(rt; told(answer) == *pair);
    }
    Ok(())
}

#[test]
fn no_calls(rt: HostRuntime) -> Result<(), Fail> {
    let mut shelf = shelf(rt.alloc(), 10, 20, "10 By 1")?;
    assert!(rt; run(rt.alloc(), &mut shelf, &[])?.len() == 0);
    Ok(())
}
