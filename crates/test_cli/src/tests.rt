// What no clause says: that checks come to an end with ample memory, and what serde_json takes a text for; and devices that give
// and take little, or fail.
mod running;

use cli::{Fault, Form, OfProcess, check_script, check_text, line_of, read_form, read_words};
use replay::device::{FromReader, IntoWriter};
use std::alloc::{AllocError, Global};
use std::env::{Env, FillError};
use std::io::{self, Read};
use std::process::Abort;
use std::test::Fail;
use test_texts::devices::{Basin, Drip};
use test_texts::parts::text_of;

const LOOP_OF_CALLS: &[u8] =
    b"{\"methods\":[[{\"loop\":3,\"body\":[{\"call\":1},\"native\"]}],[\"tick\"]]}";

/// What is printed for a text, and the status.
fn answer_to(alloc: Global, text: &[u8]) -> Result<(String, u8), AllocError> {
    match check_text(alloc, text) {
        Ok(code) => Ok((line_of(alloc, &code)?, 0)),
        Err(fault) => Ok((format!(in alloc; "monitor: {fault}\n")?, fault.status())),
    }
}

fn expect(rt: &impl Abort, alloc: Global, text: &[u8], printed: &str) -> Result<(), AllocError> {
    let (found, status) = answer_to(alloc, text)?;
    assert!(rt;
        found.as_str().strip_suffix("\n") == Some(printed),
        "{found}"
    );
    assert!(rt; (status == 0) == printed.starts_with("ok"));
    assert!(rt; status < 2);
    Ok(())
}

// A row has a text in parts (`test_texts`), and the line that is printed for it.
fn row_of(rt: &impl Abort, alloc: Global, row: &'static str) -> (Vec<u8>, &'static str) {
    let (parts, printed) = row.split_once(" => ").expect(rt, "a text and a line");
    (text_of(alloc, parts).expect(rt, "memory"), printed)
}

fn expect_rows(rt: &impl Abort, alloc: Global, rows: &'static str) -> Result<(), AllocError> {
    for row in rows.lines().skip(1) {
        let (text, printed) = row_of(rt, alloc, row);
        expect(rt, alloc, &text, printed)?;
    }
    Ok(())
}

// The last row has a fault of reading, which comes before each of checking.
const SCRIPTS: &str = r#"
{"methods":[[{"loop":3,"body":[{"call":1},"native"]}],["tick"]]} => ok 2
{"methods":[[{"call":0}]]} => ok 1
{"methods":[[{"call":1}]]} => monitor: BadCall at 0.0
{"methods":[[ => monitor: NotJson at -
{"methods":[[],["tick",{"loop":0,"body":[]}]]} => monitor: BadLoop at 1.1
 => monitor: NotJson at -
{"methods":[]} => monitor: NoMethods at -
{"methods":[["tock"]]} => monitor: BadShape at 0.0
[] => monitor: BadShape at -
{"methods":[[{"call":9}],["tock"]]} => monitor: BadShape at 1.0
"#;

#[test]
fn scripts_are_answered(rt: HostRuntime) -> Result<(), Fail> {
    expect_rows(&rt, rt.alloc(), SCRIPTS)?;
    Ok(())
}

// From a source to a sink: a fault is told and nothing is written.
#[test]
fn scripts_are_checked(rt: HostRuntime) -> Result<(), Fail> {
    for row in SCRIPTS.lines().skip(1) {
        let (text, printed) = row_of(&rt, rt.alloc(), row);
        let mut basin = Basin::new(rt.alloc(), 1000, 0, false);
        match run(rt.alloc(), &mut Drip::new(&text, 1000, 0), &mut basin) {
            Ok(()) => {
                assert!(rt; basin.got.strip_suffix(b"\n") == Some(printed.as_bytes()));
            }
            Err(fault) => {
                let told = fault.to_string(rt.alloc())?;
                assert!(rt; printed.strip_prefix("monitor: ") == Some(told.as_str()));
                assert!(rt; fault.status() == 1);
                assert!(rt; basin.got.is_empty());
            }
        }
    }
    Ok(())
}

const HOSTILE: &str = r#"
200*[|200*] => monitor: NotJson at -
1048577*  => monitor: TooLong at -
{"methods":[["tick",|9*{"loop":1,"body":[|9*]}|]]} => monitor: TooDeep at 0.1.0.0.0.0.0.0.0.0
{"methods":[[]|256*,[]|]} => monitor: TooManyMethods at -
{"methods":[["vm"|65536*,"vm"|]]} => monitor: TooManyItems at 0.65536
"#;

#[test]
fn hostile_texts_are_answered(rt: HostRuntime) -> Result<(), Fail> {
    for end in 0..LOOP_OF_CALLS.len() {
        expect(
            &rt,
            rt.alloc(),
            &LOOP_OF_CALLS[..end],
            "monitor: NotJson at -",
        )?;
    }
    expect_rows(&rt, rt.alloc(), HOSTILE)?;
    Ok(())
}

const FULL_SIZE: &str = r#"
{"methods":[[]|254*,[]|,[{"call":255}]]} => ok 256
{"methods":[["vm"|65535*,"vm"|]]} => ok 1
{"methods":[[|8*{"loop":1000000,"body":[|8*]}|]]} => ok 1
"#;

#[test]
fn scripts_of_full_size_are_answered(rt: HostRuntime) -> Result<(), Fail> {
    expect_rows(&rt, rt.alloc(), FULL_SIZE)?;
    let longest = text_of(rt.alloc(), r#"{"methods":[[]]}|1048560* "#)?;
    assert!(rt; longest.len() == 1_048_576);
    expect(&rt, rt.alloc(), &longest, "ok 1")?;
    Ok(())
}

// A command line, its program's name first.
#[derive(Drop)]
struct Line<'a> {
    words: &'a [&'a [u8]],
}

impl Env for Line<'_> {
    fn arg(&self, i: usize, buf: &mut [u8]) -> Result<usize, FillError> {
        let Some(word) = self.words.get(i) else {
            return Err(FillError::NotPresent);
        };
        if word.len() > buf.len() {
            return Err(FillError::TooLong);
        }
        buf[..word.len()].copy_from_slice(word);
        Ok(word.len())
    }

    fn var(&self, _name: &str, _buf: &mut [u8]) -> Result<usize, FillError> {
        Err(FillError::NotPresent)
    }

    fn var_at(&self, _i: usize, _buf: &mut [u8]) -> Result<usize, FillError> {
        Err(FillError::NotPresent)
    }
}

// Some calls of `monitor` have three words.
fn three<'a>(program: &'a [u8], form: &'a [u8], file: &'a [u8]) -> [&'a [u8]; 3] {
    [program, form, file]
}

#[test]
fn the_programs_name_may_be_no_text(rt: HostRuntime) -> Result<(), Fail> {
    for line in [
        three(b"monitor", b"check", b"a.json"),
        three(b"\xff/monitor", b"check", b"a.json"),
        three(b"", b"check", b"a.json"),
    ] {
        match read_words(&OfProcess::new(&Line { words: &line }), rt.alloc()) {
            Ok(words) => assert!(rt; read_form(&words) == Some(Form::Check("a.json"))),
            Err(_) => return Err(Fail::from("good words")),
        }
    }
    Ok(())
}

#[test]
fn words_that_are_no_text_are_bad(rt: HostRuntime) -> Result<(), Fail> {
    for line in [
        three(b"monitor", b"check", b"\xff"),
        three(b"monitor", b"\x80", b"a.json"),
    ] {
        let found = read_words(&OfProcess::new(&Line { words: &line }), rt.alloc());
        assert!(rt; matches!(found, Err(Fault::BadWords)));
    }
    Ok(())
}

// Spaces without an end.
#[derive(Drop)]
struct Endless {
    given: usize,
}

impl Read for Endless {
    fn read(&mut self, buf: &mut [u8]) -> io::Result<usize> {
        buf.fill(b' ');
        self.given = self.given.saturating_add(buf.len());
        Ok(buf.len())
    }
}

fn run<R: Read>(alloc: Global, reader: &mut R, basin: &mut Basin) -> Result<(), Fault> {
    check_script(
        alloc,
        &mut FromReader::new(reader),
        &mut IntoWriter::new(basin),
    )
}

#[test]
fn devices_may_give_and_take_a_byte_a_call(rt: HostRuntime) -> Result<(), Fail> {
    for step in [1, 7, 1_000_000] {
        let mut drip = Drip::new(LOOP_OF_CALLS, step, 0);
        let mut basin = Basin::new(rt.alloc(), step, 0, false);
        assert!(rt; run(rt.alloc(), &mut drip, &mut basin).is_ok());
        assert!(rt; basin.got.as_slice() == b"ok 2\n".as_slice());
    }
    Ok(())
}

#[test]
fn a_failed_read_is_the_files_fault(rt: HostRuntime) -> Result<(), Fail> {
    for bad_call in 1..4 {
        let mut drip = Drip::new(LOOP_OF_CALLS, 30, bad_call);
        let mut basin = Basin::new(rt.alloc(), 1, 0, false);
        let found = run(rt.alloc(), &mut drip, &mut basin);
        assert!(rt; matches!(found, Err(Fault::FileNotRead)));
        assert!(rt; drip.calls == bad_call);
        assert!(rt; basin.got.is_empty());
    }
    Ok(())
}

#[test]
fn a_failed_write_is_told(rt: HostRuntime) -> Result<(), Fail> {
    for bad_call in 1..6 {
        for takes_nothing in [false, true] {
            let mut drip = Drip::new(LOOP_OF_CALLS, 1000, 0);
            let mut basin = Basin::new(rt.alloc(), 1, bad_call, takes_nothing);
            let found = run(rt.alloc(), &mut drip, &mut basin);
            assert!(rt; matches!(found, Err(Fault::WriteFailed)));
            assert!(rt; basin.calls == bad_call);
            assert!(rt; basin.got.len() + 1 == bad_call);
        }
    }
    Ok(())
}

#[test]
fn a_file_without_an_end_is_too_long(rt: HostRuntime) -> Result<(), Fail> {
    let mut endless = Endless { given: 0 };
    let mut basin = Basin::new(rt.alloc(), 1, 0, false);
    let found = run(rt.alloc(), &mut endless, &mut basin);
    let Err(fault) = found else {
        return Err(Fail::from("no fault"));
    };
    assert!(rt; fault.to_string(rt.alloc())?.as_str() == "TooLong at -");
    assert!(rt; endless.given < 1_200_000);
    Ok(())
}

// It passes whichever growth of memory is refused: the whole line is written, or nothing.
#[test]
fn refused_memory_writes_nothing(rt: HostRuntime) -> Result<(), Fail> {
    let mut drip = Drip::new(LOOP_OF_CALLS, 10, 0);
    let mut basin = Basin::new(rt.alloc(), 100, 0, false);
    if basin.got.reserve(10).is_err() {
        println!(rt; "refused before the check")?;
        return Ok(());
    }
    match run(rt.alloc(), &mut drip, &mut basin) {
        Ok(()) => {
            assert!(rt; basin.got.as_slice() == b"ok 2\n".as_slice());
            println!(rt; "no growth was refused")?;
        }
        Err(Fault::NoMemory) => {
            assert!(rt; basin.got.is_empty());
            println!(rt; "refused in the check")?;
        }
        Err(_) => return Err(Fail::from("another fault")),
    }
    Ok(())
}
