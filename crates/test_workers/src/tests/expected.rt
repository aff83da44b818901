//! A run of a script, and what it should come to.
use crate::tests::outcome::outcome;
use crate::tests::seen::Seen;
use crate::tests::watch::{Kind, Watch};
use script::{Code, check, read_script};
use std::alloc::Global;
use std::process::Abort;
use std::sync::{Arc, Wait};
use std::test::Fail;
use std::thread::Threads;

fn code_of(alloc: Global, text: &[u8]) -> Result<Code, Fail> {
    let Ok(script) = read_script(alloc, text) else {
        return Err(Fail::from("no script"));
    };
    match check(alloc, &script) {
        Ok(code) => Ok(code),
        Err(_) => Err(Fail::from("the script is wrong")),
    }
}

/// Runs a script on so many threads, with ticks of that kind. It should come to this text.
pub fn expect<R: Threads + Wait + Sync + Abort>(
    rt: &R,
    alloc: Global,
    kind: Kind,
    threads: usize,
    script: &[u8],
    expected: &str,
) -> Result<(), Fail> {
    let code = code_of(alloc, script)?;
    let seen = Arc::new(alloc, Seen::new(alloc, threads, code.methods())?)?;
    let watch = Watch { kind, seen };
    let found = outcome(rt, alloc, &code, threads, &watch)?;
    if found.as_str() != expected {
        panic!(rt; "found {found} and not {expected}");
    }
    Ok(())
}
