// Texts that are made to mislead: each has its first fault, at its exact place.
use super::scripts::{expect_line, expect_table};

// The texts with bytes that no row of a table can hold.
const OTHER_BYTES: [&[u8]; 11] = [
    b" \t\r\n",
    b"\0",
    b"{\"methods\":[[]]}\0",
    b"{\"methods\":\x0c[[]]}",
    b"{\"methods\":[[\"v\nm\"]]}",
    b"{\"methods\":[[\"v\0m\"]]}",
    b"{\"methods\":[[\"\xff\"]]}",
    b"\xef\xbb\xbf{\"methods\":[[]]}",
    b"{\"methods\":[[\"\xc0\x80\"]]}",
    b"{\"methods\":[[\"\xed\xa0\x80\"]]}",
    b"{\"methods\":[[\"\xf4\x90\x80\x80\"]]}",
];

const NO_JSON: &str = r#"
 => NotJson at -
nul => NotJson at -
{methods:[[]]} => NotJson at -
{'methods':[[]]} => NotJson at -
{"methods":[[]],} => NotJson at -
{"methods":[[],]} => NotJson at -
{"methods":[[,]]} => NotJson at -
{"methods":[["vm" "vm"]]} => NotJson at -
{"methods":[["vm";"vm"]]} => NotJson at -
{"methods" [[]]} => NotJson at -
{"methods":[[]] => NotJson at -
{"methods":[[]}} => NotJson at -
{"methods":[[]]}} => NotJson at -
{"methods":[[]]}{"methods":[[]]} => NotJson at -
{"methods":[[]]} x => NotJson at -
{"methods":[[]]} // the end => NotJson at -
{"methods":[[{"call":00}]]} => NotJson at -
{"methods":[[{"call":+0}]]} => NotJson at -
{"methods":[[{"call":0.}]]} => NotJson at -
{"methods":[[{"call":.0}]]} => NotJson at -
{"methods":[[{"call":0e}]]} => NotJson at -
{"methods":[[{"call":0x0}]]} => NotJson at -
{"methods":[[{"call":NaN}]]} => NotJson at -
{"methods":[[{"call":-1e400}]]} => NotJson at -
{"methods":[["v\m"]]} => NotJson at -
{"methods":[["\u00"]]} => NotJson at -
{"methods":[["\ud800"]]} => NotJson at -
{"methods":[["\udc00"]]} => NotJson at -
{"methods":[["\ud800\u0041"]]} => NotJson at -
"#;

#[test]
fn broken_json_has_no_place(rt: HostRuntime) {
    for text in OTHER_BYTES {
        expect_line(&rt, rt.alloc(), text, "NotJson at -");
    }
    expect_table(&rt, rt.alloc(), NO_JSON);
}

const BAD_SHAPES: &str = r#"
null => BadShape at -
7 => BadShape at -
"methods" => BadShape at -
[] => BadShape at -
{} => BadShape at -
{"Methods":[[]]} => BadShape at -
{"methods":{}} => BadShape at -
{"methods":null} => BadShape at -
{"methods":[[]],"methods":7} => BadShape at -
{"methods":[null]} => BadShape at 0
{"methods":[[],{}]} => BadShape at 1
{"methods":["native"]} => BadShape at 0
{"methods":[[null]]} => BadShape at 0.0
{"methods":[[7]]} => BadShape at 0.0
{"methods":[[""]]} => BadShape at 0.0
{"methods":[["Native"]]} => BadShape at 0.0
{"methods":[["native "]]} => BadShape at 0.0
{"methods":[["call"]]} => BadShape at 0.0
{"methods":[[{}]]} => BadShape at 0.0
{"methods":[[{"Call":0}]]} => BadShape at 0.0
{"methods":[[{"call":"0"}]]} => BadShape at 0.0
{"methods":[[{"call":null}]]} => BadShape at 0.0
{"methods":[[{"call":[0]}]]} => BadShape at 0.0
{"methods":[[{"call":0,"body":[]}]]} => BadShape at 0.0
{"methods":[[{"body":[]}]]} => BadShape at 0.0
{"methods":[[{"loop":"1","body":[]}]]} => BadShape at 0.0
{"methods":[[{"loop":1,"body":"vm"}]]} => BadShape at 0.0
{"methods":[[{"loop":1,"body":["vm","tock"]}]]} => BadShape at 0.0.1
{"methods":[["vm",{"loop":1,"body":[{"loop":1,"body":[null]}]}]]} => BadShape at 0.1.0.0
"#;

#[test]
fn what_is_no_script_is_told_at_its_place(rt: HostRuntime) {
    expect_table(&rt, rt.alloc(), BAD_SHAPES);
}

const TURNS_AND_CALLS: &str = r#"
{"methods":[[{"loop":-0,"body":[]}]]} => BadShape at 0.0
{"methods":[[{"loop":-1,"body":[]}]]} => BadShape at 0.0
{"methods":[[{"loop":1.0,"body":[]}]]} => BadShape at 0.0
{"methods":[[{"loop":1e0,"body":[]}]]} => BadShape at 0.0
{"methods":[[{"loop":18446744073709551616,"body":[]}]]} => BadShape at 0.0
{"methods":[[{"loop":18446744073709551615,"body":[]}]]} => BadLoop at 0.0
{"methods":[[{"body":[],"loop":1}]]} => ok 1
{"methods":[[{"call":2}],[]]} => BadCall at 0.0
{"methods":[[],["vm",{"call":1},{"call":2}]]} => BadCall at 1.2
"#;

// A loop's fault is reported before those of its body, and an earlier fault before a later one.
const IN_ORDER: &str = r#"
{"methods":[[{"loop":0,"body":[{"call":9}]}]]} => BadLoop at 0.0
{"methods":[[{"loop":1,"body":[{"call":9}]},{"loop":0,"body":[]}]]} => BadCall at 0.0.0
"#;

const READING_BEFORE_CHECKING: &str = r#"
{"methods":[[{"loop":0,"body":[{"call":9}]},"tock"]]} => BadShape at 0.1
{"methods":[[{"call":9}],null]} => BadShape at 1
"#;

#[test]
fn turns_and_calls_are_told_at_their_place(rt: HostRuntime) {
    for table in [TURNS_AND_CALLS, IN_ORDER, READING_BEFORE_CHECKING] {
        expect_table(&rt, rt.alloc(), table);
    }
}
