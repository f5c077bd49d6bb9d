//! Tests a table of lines, and the bytes of some replies and report lines.
use crate::{
    Event, LineError, Page, Reply, ReportLine, Splitter, parse_line, put_reply, put_report_line,
    split_line,
};
use roman_io::{Failed, MemSink};
use roman_read::Name;
use std::test::Fail;

#[test]
fn reads_lines(rt: HostRuntime) {
    let long = [b' '; 257];
    let join = Event::Join {
        service: b"arm4",
        behaviour: b"dipper",
        state: b"free",
        loose: true,
    };
    for (line, event) in [
        (b" do\ton \r".as_slice(), Ok(Event::Ask(b"on"))),
        (b"join arm4 dipper free loose".as_slice(), Ok(join)),
        (b"\t \r".as_slice(), Ok(Event::Nothing)),
        (b"#quit now".as_slice(), Ok(Event::Nothing)),
        (b"quit now".as_slice(), Err(LineError::Form)),
        (b"quit\r\r".as_slice(), Err(LineError::Form)),
        (&long[1..], Ok(Event::Nothing)),
        (&long, Err(LineError::TooLong)),
    ] {
        assert_eq!(rt; parse_line(line), event);
    }
    let mut splitter = Splitter::new();
    for piece in [b"do o".as_slice(), b"n\r".as_slice(), b"\nqu".as_slice()] {
        let mut rest = piece;
        if let Some((line, after)) = split_line(piece) {
            splitter.hold(line);
            assert_eq!(rt; parse_line(splitter.line()), Ok(Event::Ask(b"on")));
            splitter.clear();
            rest = after;
        }
        splitter.hold(rest);
    }
    assert!(rt; splitter.rest());
    assert_eq!(rt; splitter.line(), b"qu".as_slice());
    splitter.hold(&[b'x'; 300]);
    assert_eq!(rt; splitter.line().len(), 257);
    assert!(rt; !splitter.push(b'x'));
    assert!(rt; splitter.push(b'\n'));
    assert_eq!(rt; splitter.line().len(), 257);
}

#[test]
fn writes_texts(rt: HostRuntime) -> Result<(), Fail> {
    let alloc = rt.alloc();
    let on = Name::new(b"on").ok_or("a name")?;
    let l1 = Name::new(b"l1").ok_or("a name")?;
    let mut sink = MemSink::new(alloc, [4].to_vec(alloc)?);
    put_reply(&mut sink, &Reply::Offer)?;
    put_reply(&mut sink, &Reply::Serves(l1))?;
    put_reply(&mut sink, &Reply::Stop)?;
    put_reply(&mut sink, &Reply::Kept { kept: 0, added: 12 })?;
    assert_eq!(rt; put_report_line(&mut sink, &ReportLine::End), Err(Failed));
    let mut page = Page::new();
    let now = Reply::Now {
        target: on,
        env: on,
    };
    page.push_reply(&now, &mut sink)?;
    let service = ReportLine::Service {
        name: l1,
        behaviour: on,
        state: on,
        frozen: true,
        loose: true,
    };
    page.push_report_line(&service, &mut sink)?;
    page.push_report_line(&ReportLine::Answer(true), &mut sink)?;
    assert_eq!(rt; sink.bytes().len(), 27);
    page.flush(&mut sink)?;
    assert_eq!(rt;
        sink.bytes(),
        b"offer l1\nkept 0 added 12\nennow on on\nservice l1 on on frozen loose\nanswer composition\n".as_slice()
    );
    assert_eq!(rt; Reply::ErrorRelated.number(), Some(14));
    Ok(())
}
