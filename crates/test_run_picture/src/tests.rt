// Whole pictures, over devices that give and take little, or fail.
use replay::device::{FromReader, IntoWriter};
use replay::stream::ReplayFault;
use run_picture::{Asked, Form, Part, WHOLE, draw_run, read_words};
use std::alloc::{AllocError, Global};
use std::process::Abort;
use std::test::Fail;
use test_texts::devices::{Basin, Drip};

const PICTURE: Asked = Asked {
    form: Form::Picture,
    part: WHOLE,
};

// What is answered, and what was written.
fn drawn_over(
    alloc: Global,
    mut source: Drip<'_>,
    mut sink: Basin,
    asked: Asked,
) -> (Result<(), ReplayFault>, Vec<u8>) {
    let outcome = draw_run(
        alloc,
        &mut FromReader::new(&mut source),
        &mut IntoWriter::new(&mut sink),
        asked,
    );
    (outcome, sink.got)
}

// The picture, where reads and writes take so many bytes and these calls fail.
fn drawn_by(
    alloc: Global,
    input: &[u8],
    step: usize,
    bad_read: usize,
    bad_write: usize,
) -> (Result<(), ReplayFault>, Vec<u8>) {
    let source = Drip::new(input, step, bad_read);
    let sink = Basin::new(alloc, step, bad_write, false);
    drawn_over(alloc, source, sink, PICTURE)
}

// What is drawn of the handshake.
fn drawn(rt: &impl Abort, alloc: Global, asked: Asked) -> Vec<u8> {
    let source = Drip::new(HANDSHAKE, 1_000_000, 0);
    let sink = Basin::new(alloc, 1_000_000, 0, false);
    let (outcome, text) = drawn_over(alloc, source, sink, asked);
    assert!(rt; outcome == Ok(()));
    text
}

fn has(text: &[u8], part: &[u8]) -> bool {
    count(text, part) > 0
}

// Whether a line has such a mark, which tells the line and its answer.
fn has_mark(
    alloc: Global,
    text: &[u8],
    line: u64,
    class: &str,
    mark: &str,
    told: &str,
) -> Result<bool, AllocError> {
    let mark = format!(in alloc;
        "<g id='line{line}' class='{class} {mark}'><title>{told}\n</title><use href='#{mark}'"
    )?;
    Ok(has(text, mark.as_bytes()))
}

// Whether there is such a part of a lane, from this point on, with this width and height.
fn has_lane(
    alloc: Global,
    text: &[u8],
    class: &str,
    from: (u64, u64),
    size: (u64, u64),
) -> Result<bool, AllocError> {
    let ((x, y), (width, height)) = (from, size);
    let lane = format!(in alloc;
        "<rect class='{class}' x='{x}' y='{y}' width='{width}' height='{height}'/>"
    )?;
    Ok(has(text, lane.as_bytes()))
}

// How often a part stands in a text.
fn count(text: &[u8], part: &[u8]) -> usize {
    let mut times = 0usize;
    for at in 0..text.len() {
        if text[at..].starts_with(part) {
            times = times.saturating_add(1);
        }
    }
    times
}

const HANDSHAKE: &[u8] =
    b"size 1 4 2\nstart\nbegin 0\nend 0\nwake 0\ncross 0\ninstall 0\nenter 0 0 1\ntonative 0\nask count 1 1\nopen\nhold 0\ntell 1\nhold 0\nbegin 0\nchange 0\nend 0\nfinish 0\nclear 0\nrelease 0\nwake 0\ncross 0\nclose\nstart 7\n";

#[test]
fn each_line_has_one_mark(rt: HostRuntime) -> Result<(), Fail> {
    let text = drawn(&rt, rt.alloc(), PICTURE);
    assert!(rt; count(&text, b"<g id='line") == 24);
    assert!(rt; count(&text, b"class='accepted ") == 22);
    for (line, class, mark, told) in [
        (12, "refused", "refusal", "hold 0\nrefused NotTold"),
        (16, "accepted", "change", "change 0\nchange 1 +1"),
        (18, "accepted", "callback", "finish 0\nreply 1"),
        (24, "bad", "badline", "start 7\nbad line"),
    ] {
        let is_there = has_mark(rt.alloc(), &text, line, class, mark, told)?;
        assert!(rt; is_there, "{told}");
    }
    assert!(rt; text.as_slice().ends_with(b"</g>\n</svg>\n"));
    Ok(())
}

// One step is 22 pixels, and line 9 stands at 280: native from line 9 to line 21. Held from line 14 to line 20, and a publication from
// line 15 to line 17. The operation is open from line 11 to line 23, and the code in use up to the end.
#[test]
fn lanes_show_states_in_colours(rt: HostRuntime) -> Result<(), Fail> {
    let text = drawn(&rt, rt.alloc(), PICTURE);
    for (class, from, size) in [
        ("native", (280, 245), (264, 15)),
        ("held", (390, 241), (132, 4)),
        ("publishing", (412, 261), (44, 6)),
        ("handshake", (324, 204), (264, 12)),
        ("inuse", (236, 304), (396, 12)),
    ] {
        assert!(rt; has_lane(rt.alloc(), &text, class, from, size)?, "{class}");
    }
    Ok(())
}

#[test]
fn the_picture_is_the_same_however_it_is_read(rt: HostRuntime) -> Result<(), Fail> {
    let whole = drawn(&rt, rt.alloc(), PICTURE);
    for step in [1, 7] {
        let (outcome, text) = drawn_by(rt.alloc(), HANDSHAKE, step, 0, 0);
        assert!(rt; outcome == Ok(()));
        assert!(rt; text == whole);
    }
    Ok(())
}

#[test]
fn a_last_line_without_a_newline_is_marked(rt: HostRuntime) -> Result<(), Fail> {
    for (input, marks) in [
        (b"".as_slice(), 0),
        (b"\n".as_slice(), 1),
        (b"size 1 1 1\nstart".as_slice(), 2),
        (b"size 1 1 1\nstart\n".as_slice(), 2),
    ] {
        let (outcome, text) = drawn_by(rt.alloc(), input, 1, 0, 0);
        assert!(rt; outcome == Ok(()));
        assert!(rt; count(&text, b"<g id='line") == marks);
    }
    Ok(())
}

#[test]
fn bytes_that_are_no_text_are_told_as_text(rt: HostRuntime) -> Result<(), Fail> {
    let (outcome, text) = drawn_by(rt.alloc(), b"<a&b>\x01\xff~\n", 1, 0, 0);
    assert!(rt; outcome == Ok(()));
    assert!(rt; has(&text, b"<title>&lt;a&amp;b&gt;??~\nbad line\n</title>"));
    Ok(())
}

#[test]
fn a_read_that_fails_writes_nothing(rt: HostRuntime) -> Result<(), Fail> {
    let (outcome, text) = drawn_by(rt.alloc(), HANDSHAKE, 10, 3, 0);
    assert!(rt; outcome == Err(ReplayFault::ReadFailed));
    assert!(rt; text.is_empty());
    Ok(())
}

#[test]
fn a_write_that_fails_leaves_a_beginning(rt: HostRuntime) -> Result<(), Fail> {
    let (outcome, text) = drawn_by(rt.alloc(), HANDSHAKE, 10, 0, 3);
    assert!(rt; outcome == Err(ReplayFault::WriteFailed));
    assert!(rt; text.as_slice() == b"<svg xmlns='http://w".as_slice());
    Ok(())
}

#[test]
fn a_part_has_the_state_that_the_lines_before_left(rt: HostRuntime) -> Result<(), Fail> {
    let asked = Asked {
        form: Form::Picture,
        part: Part {
            from: 15,
            end: Some(18),
        },
    };
    let text = drawn(&rt, rt.alloc(), asked);
    assert!(rt; count(&text, b"<g id='line") == 3);
    let end = b"<g id='line17' class='accepted step'><title>end 0\nok\n</title>";
    assert!(rt; has(&text, end));
    assert!(rt; has(&text, b">lines 15 to 17 of 24, 0 refused, 0 bad;"));
    // Native and held since before the part, and after it: from its first line to behind its last.
    assert!(rt; has_lane(rt.alloc(), &text, "native", (104, 245), (66, 15))?);
    assert!(rt; has_lane(rt.alloc(), &text, "held", (104, 241), (66, 4))?);
    Ok(())
}

#[test]
fn a_page_holds_the_picture(rt: HostRuntime) -> Result<(), Fail> {
    let picture = drawn(&rt, rt.alloc(), PICTURE);
    let asked = Asked {
        form: Form::Page,
        part: WHOLE,
    };
    let page = drawn(&rt, rt.alloc(), asked);
    assert!(rt; page.as_slice().starts_with(b"<!DOCTYPE html>\n"));
    assert!(rt; page.as_slice().ends_with(b"</html>\n"));
    assert!(rt; has(&page, &picture));
    Ok(())
}

// What is asked for by these words: whether a page, the first line, and the first one behind the last.
fn asked_by(alloc: Global, words: &[&str]) -> Result<Option<(bool, u64, Option<u64>)>, Fail> {
    let mut all = Vec::new(alloc);
    for word in words {
        all.push(String::from_str(alloc, word)?)?;
    }
    Ok(match read_words(&all) {
        None => None,
        Some(asked) => Some((asked.form == Form::Page, asked.part.from, asked.part.end)),
    })
}

#[test]
fn words_ask_for_a_form_and_a_part(rt: HostRuntime) -> Result<(), Fail> {
    let alloc = rt.alloc();
    assert!(rt; asked_by(alloc, &[])? == Some((false, 1, None)));
    assert!(rt; asked_by(alloc, &["--html"])? == Some((true, 1, None)));
    assert!(rt; asked_by(alloc, &["--from", "7"])? == Some((false, 7, None)));
    assert!(rt; asked_by(alloc, &["--to", "7"])? == Some((false, 1, Some(8))));
    assert!(rt;
        asked_by(alloc, &["--html", "--from", "3", "--to", "1099511627775"])?
            == Some((true, 3, Some(1_099_511_627_776)))
    );
    assert!(rt; asked_by(alloc, &["--from", "5", "--to", "5"])? == Some((false, 5, Some(6))));
    Ok(())
}

#[test]
fn other_words_are_bad(rt: HostRuntime) -> Result<(), Fail> {
    let alloc = rt.alloc();
    assert!(rt; asked_by(alloc, &["run"])?.is_none());
    assert!(rt; asked_by(alloc, &["--from"])?.is_none());
    assert!(rt; asked_by(alloc, &["--from", "9", "--to", "2"])?.is_none());
    assert!(rt; asked_by(alloc, &["--html", "--from", "6", "--to", "5"])?.is_none());
    for number in ["", "0", "01", "+1", "-1", "1 ", "1099511627776", "x"] {
        assert!(rt; asked_by(alloc, &["--from", number])?.is_none());
        assert!(rt; asked_by(alloc, &["--to", number])?.is_none());
    }
    Ok(())
}
