// Tests of what no clause says about scripts: the printed lines, and that `serde_json` reads a text as intended.
use super::{LOOP_OF_CALLS, code_of, expect};
use script::{Code, Place};
use std::alloc::{AllocError, Global};
use std::process::Abort;
use std::test::Fail;
use test_texts::parts::text_of;

// The result of reading and checking a text, as a program prints it.
pub fn line_of(alloc: Global, text: &[u8]) -> Result<String, AllocError> {
    match code_of(alloc, text) {
        Err(fault) => fault.to_string(alloc),
        Ok(code) => format!(in alloc; "ok {}", code.methods()),
    }
}

pub fn expect_line(rt: &impl Abort, alloc: Global, text: &[u8], line: &str) {
    let found = line_of(alloc, text).expect(rt, "memory");
    expect(rt, found.as_str(), line);
}

// Each text of a table has the result that follows it in its row.
pub fn expect_table(rt: &impl Abort, alloc: Global, table: &str) {
    for row in table.lines().skip(1) {
        let (parts, line) = row.split_once(" => ").expect(rt, "a text and a line");
        let text = text_of(alloc, parts).expect(rt, "memory");
        expect_line(rt, alloc, &text, line);
    }
}

const FIRST_FAULTS: &str = r#"
{"methods":[[{"loop":3,"body":[{"call":1},"native"]}],["tick"]]} => ok 2
{"methods":[[{"call":1}]]} => BadCall at 0.0
{"methods":[[ => NotJson at -
{"methods":[[],["tick",{"loop":0,"body":[]}]]} => BadLoop at 1.1
{"methods":[]} => NoMethods at -
{"methods":[["tock"]]} => BadShape at 0.0
{"methods":[[],7]} => BadShape at 1
{"methods":[[{"call":9}],["tock"]]} => BadShape at 1.0
{"methods":[[{"loop":1000001,"body":[{"call":9}]}]]} => BadLoop at 0.0
{"methods":[[{"loop":1000000,"body":["vm",{"call":9}]}]]} => BadCall at 0.0.1
"#;

const REPEATED_KEYS: &str = r#"
{"methods":3,"methods":[[]]} => ok 1
{"methods":[[{"call":5,"call":0}]]} => ok 1
"#;

const SPELLED_KEYS_AND_WORDS: &str = r#"
{"m\u0065thods":[["t\u0069ck"]]} => ok 1
"#;

const OTHER_KEYS: &str = r#"
{"methods":[[]],"more":1} => BadShape at -
[[]] => BadShape at -
{"methods":[[{"call":0,"more":1}]]} => BadShape at 0.0
{"methods":[[{"loop":1}]]} => BadShape at 0.0
{"methods":[[{"loop":1,"body":[],"more":1}]]} => BadShape at 0.0
{"methods":[[{"loop":1,"body":{}}]]} => BadShape at 0.0
{"methods":[[[]]]} => BadShape at 0.0
"#;

// A number is a whole one below 2^64.
const NUMBERS: &str = r#"
{"methods":[[{"call":0.0}]]} => BadShape at 0.0
{"methods":[[{"call":0e0}]]} => BadShape at 0.0
{"methods":[[{"call":-0}]]} => BadShape at 0.0
{"methods":[[{"call":-1}]]} => BadShape at 0.0
{"methods":[[{"call":18446744073709551616}]]} => BadShape at 0.0
{"methods":[[{"call":18446744073709551615}]]} => BadCall at 0.0
{"methods":[[{"call":1e309}]]} => NotJson at -
"#;

#[test]
fn scripts_and_their_first_faults(rt: HostRuntime) {
    for table in [
        FIRST_FAULTS,
        REPEATED_KEYS,
        SPELLED_KEYS_AND_WORDS,
        OTHER_KEYS,
        NUMBERS,
    ] {
        expect_table(&rt, rt.alloc(), table);
    }
}

#[test]
fn every_cut_of_a_script_is_no_json(rt: HostRuntime) {
    let text = LOOP_OF_CALLS.as_bytes();
    for end in 0..text.len() {
        expect_line(&rt, rt.alloc(), &text[..end], "NotJson at -");
    }
}

// The steps of a method's code, up to its end.
fn add_steps(rt: &impl Abort, code: &Code, method: usize, text: &mut String) {
    for at in 0..100 {
        let Some(op) = code.op(method, at) else {
            return;
        };
        write!(text, "{method}.{at} {op:?}\n").expect(rt, "memory");
    }
}

#[test]
fn code_is_flat(rt: HostRuntime) -> Result<(), Fail> {
    let alloc = rt.alloc();
    let code = code_of(alloc, LOOP_OF_CALLS.as_bytes())?;
    let mut text = String::new(alloc);
    for method in 0..3 {
        add_steps(&rt, &code, method, &mut text);
    }
    let wanted =
        "0.0 Action(Call(1))\n0.1 Action(Native)\n0.2 Edge { turns: 3, start: 0, level: 0 }\n1.0 Action(Tick)\n";
    expect(&rt, text.as_str(), wanted);
    Ok(())
}

fn deep_place(alloc: Global) -> Result<Place, AllocError> {
    let mut place = Place::document(alloc);
    place.enter(2)?;
    place.enter(0)?;
    place.enter(3)?;
    Ok(place)
}

fn add_place(rt: &impl Abort, text: &mut String, place: &Place) {
    write!(text, "{place} ").expect(rt, "memory");
}

#[test]
fn places_are_lists_of_numbers(rt: HostRuntime) -> Result<(), Fail> {
    let mut text = String::new(rt.alloc());
    add_place(&rt, &mut text, &Place::document(rt.alloc()));
    let mut place = deep_place(rt.alloc())?;
    add_place(&rt, &mut text, &place);
    place.leave();
    add_place(&rt, &mut text, &place);
    assert!(rt; place.numbers() == [2, 0].as_slice());
    add_place(&rt, &mut text, &Place::new(place.into_numbers()));
    expect(&rt, text.as_str(), "- 2.0.3 2.0 2.0 ");
    Ok(())
}
