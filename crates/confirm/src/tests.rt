//! Tests of reading orders, and of the verdicts on whole texts.
use crate::order::read_order;
use crate::parts::part;
use crate::told::tell;
use std::alloc::{AllocError, Global};
use std::test::Fail;

/// A log of one call that starts a thread.
const LOG: &[u8] = b"witness 1\nsize 1 1 1\n0 0 1 start : thread 1 0\norder\n";

/// What reading an order gives: the numbers of the calls and the events, or the fault.
fn read_of(alloc: Global, text: &[u8]) -> Result<String, AllocError> {
    match read_order(alloc, text, Vec::new(alloc)) {
        Ok(order) => {
            let owners = order.owners.as_slice();
            let events = order.events.as_slice();
            format!(in alloc; "{owners:?} {events:?}")
        }
        Err(fault) => format!(in alloc; "{fault}"),
    }
}

#[test]
fn orders_are_read(rt: HostRuntime) -> Result<(), Fail> {
    for (text, read) in [
        (b"".as_slice(), "[] []"),
        (b"0 start\n".as_slice(), "[0] [Start]"),
        (
            b"7 tell 1\n0 close\n".as_slice(),
            "[7, 0] [Tell(1), Close(None)]",
        ),
        (
            b"1099511627775 round\n".as_slice(),
            "[1099511627775] [Round]",
        ),
        (b"1099511627776 round\n".as_slice(), "bad order: line 1"),
        (b"0 start".as_slice(), "bad order: line 1"),
        (b"0 start\n\n".as_slice(), "bad order: line 2"),
        (b"0 start\n00 start\n".as_slice(), "bad order: line 2"),
        (b"0  start\n".as_slice(), "bad order: line 1"),
        (b"0 start \n".as_slice(), "bad order: line 1"),
        (b"0 start\r\n".as_slice(), "bad order: line 1"),
        (b"start\n".as_slice(), "bad order: line 1"),
        (b"0 size 1 1 1\n".as_slice(), "bad order: line 1"),
        (b"0 open\norder\n".as_slice(), "bad order: line 2"),
    ] {
        assert_eq!(rt; read_of(rt.alloc(), text)?.as_str(), read);
    }
    Ok(())
}

#[test]
fn texts_are_cut_at_the_first_line_order(rt: HostRuntime) {
    for (text, parts) in [
        (
            b"order\n".as_slice(),
            Some((b"".as_slice(), b"".as_slice())),
        ),
        (
            b"a\norder\nb\norder\n".as_slice(),
            Some((b"a\n".as_slice(), b"b\norder\n".as_slice())),
        ),
        (b"orders\n order\n".as_slice(), None),
        (b"a\norder".as_slice(), None),
    ] {
        assert_eq!(rt; part(text), parts);
    }
}

#[test]
fn lines_are_told_of_an_order_that_explains(rt: HostRuntime) -> Result<(), Fail> {
    let alloc = rt.alloc();
    let mut text = LOG.to_vec(alloc)?;
    text.extend_from_slice(b"0 start\n0 begin 0\n0 end 0\n0 wake 0\n")?;
    let unfinished = tell(alloc, text.as_slice())?;
    assert!(rt; unfinished.is_none());
    text.extend_from_slice(b"0 cross 0\n")?;
    let lines = tell(alloc, text.as_slice())?.ok_or("unexplained")?;
    assert_eq!(rt;
        lines.as_slice(),
        b"size 1 1 1\nstart\nbegin 0\nend 0\nwake 0\ncross 0\n".as_slice()
    );
    Ok(())
}
