//! An example of the lines, pushed while there is memory.

use super::line::Line;
use super::push::push_line;
use modes::Available;
use std::test::Fail;

#[test]
fn lines_follow_each_other(rt: HostRuntime) -> Result<(), Fail> {
    let mut out = String::new(rt.alloc());
    let set = Line::Set {
        sequence: 255,
        answer: Err(10),
    };
    push_line(&mut out, set)?;
    let available = Available {
        place: 0,
        descriptor: 12,
    };
    push_line(&mut out, Line::Mode(Ok(available)))?;
    push_line(&mut out, Line::Mode(Err(18)))?;
    push_line(&mut out, Line::Bad(9))?;
    push_line(&mut out, Line::Short)?;
    assert!(rt; out.as_str() == "set 255 10\nmode 0 0 12\nmode 18 - -\nbad 9\nshort\n");
    Ok(())
}

#[test]
fn opens_and_closes_follow_each_other(rt: HostRuntime) -> Result<(), Fail> {
    let mut out = String::new(rt.alloc());
    let open = Line::Open {
        channel: 65535,
        answer: Ok(3),
    };
    push_line(&mut out, open)?;
    let refused = Line::Open {
        channel: 103,
        answer: Err(15),
    };
    push_line(&mut out, refused)?;
    let close = Line::Close {
        channel: 256,
        answer: Ok(()),
    };
    push_line(&mut out, close)?;
    assert!(rt; out.as_str() == "open 65535 0 3\nopen 103 15 -\nclose 256 0\n");
    Ok(())
}
