// Tables of text: each row has a script in parts (`test_texts`), and the line that is the result of reading and checking it, or the end of
// its run and the marks that the run made.
use script::{Code, ScriptFault, check, read_script};
use std::alloc::Global;
use std::process::Abort;

mod hostile_texts;
mod large_texts;
mod marks;
mod refused_memory;
mod scripts;

const LOOP_OF_CALLS: &str = r#"{"methods":[[{"loop":3,"body":[{"call":1},"native"]}],["tick"]]}"#;

fn code_of(alloc: Global, text: &[u8]) -> Result<Code, ScriptFault> {
    let script = read_script(alloc, text)?;
    check(alloc, &script)
}

fn expect(rt: &impl Abort, found: &str, wanted: &str) {
    assert!(rt; found == wanted, "{found}, and not {wanted}");
}
