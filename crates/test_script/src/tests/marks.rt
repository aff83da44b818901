// Tests of what no clause says about runs: that calls succeed, and that the definition of a trace is the intended one.
use super::{code_of, expect};
use interp::{Mark, Outcome, Runner, Steps, Tape};
use script::Code;
use std::alloc::Global;
use std::process::Abort;
use std::test::Fail;
use test_texts::parts::text_of;

fn runnable(rt: &impl Abort, alloc: Global, text: &[u8]) -> Code {
    let Ok(code) = code_of(alloc, text) else {
        panic!(rt; "the script is wrong");
    };
    code
}

fn runner_of<'c>(rt: &impl Abort, alloc: Global, code: &'c Code) -> Runner<'c> {
    let Ok(runner) = Runner::new(alloc, code) else {
        panic!(rt; "no runner");
    };
    runner
}

fn add_numbered(rt: &impl Abort, text: &mut String, before: &str, number: u64, behind: &str) {
    write!(text, "{before}{number}{behind}").expect(rt, "memory");
}

fn add_times(rt: &impl Abort, text: &mut String, times: u64) {
    if times > 1 {
        add_numbered(rt, text, "", times, "*");
    }
}

fn add_mark(rt: &impl Abort, text: &mut String, mark: Mark) {
    write!(text, "{mark:?} ").expect(rt, "memory");
}

// The marks in their order; a mark that repeats is written once with its number of repeats.
fn marks_of(rt: &impl Abort, alloc: Global, marks: &[Mark]) -> String {
    let mut text = String::new(alloc);
    let mut times = 1u64;
    for (at, mark) in marks.iter().enumerate() {
        if marks.get(at.saturating_add(1)) == Some(mark) {
            times = times.saturating_add(1);
        } else {
            add_times(rt, &mut text, times);
            add_mark(rt, &mut text, *mark);
            times = 1;
        }
    }
    text
}

// So many marks, made one at a time.
fn stepped(rt: &impl Abort, alloc: Global, code: &Code, marks: u64) -> String {
    let mut runner = runner_of(rt, alloc, code);
    let mut tape = Tape::new(alloc);
    for _ in 0..marks {
        assert!(rt; matches!(runner.step(&mut tape), Ok(true)));
    }
    marks_of(rt, alloc, &tape.marks)
}

// How a run ended that got some fuel, then more, and so on.
fn endings(
    rt: &impl Abort,
    alloc: Global,
    runner: &mut Runner<'_>,
    tape: &mut Tape,
    fuels: &str,
) -> String {
    let mut said = String::new(alloc);
    for fuel in fuels.split(' ') {
        let fuel = fuel.parse::<u64>().expect(rt, "fuel");
        let ending = match runner.run(tape, fuel) {
            Outcome::Finished => "finished ",
            Outcome::Overflow => "overflow ",
            Outcome::OutOfFuel => "fuel ",
            Outcome::Refused(_) => "refused ",
        };
        said.push_str(ending).expect(rt, "memory");
    }
    said
}

// How a run ended, how many marks it made, and which. Marks made one at a time are the same.
fn run_of(rt: &impl Abort, alloc: Global, code: &Code, fuels: &str) -> String {
    let mut runner = runner_of(rt, alloc, code);
    let mut tape = Tape::new(alloc);
    let mut said = endings(rt, alloc, &mut runner, &mut tape, fuels);
    assert!(rt; matches!(runner.step(&mut tape), Ok(false)));
    let marks = marks_of(rt, alloc, &tape.marks);
    assert!(rt; marks.as_str() == stepped(rt, alloc, code, runner.made()).as_str());
    write!(said, "{}: {marks}", runner.made()).expect(rt, "memory");
    said
}

// Each row has fuels, a script, and the result of its run.
const RUNS: &str = r#"
1000000 of {"methods":[[{"loop":3,"body":[{"call":1},"native"]}],["tick"]]} => finished 17: In(0) In(1) Tick Out(1) Native Edge In(1) Tick Out(1) Native Edge In(1) Tick Out(1) Native Edge Out(0)
12 of {"methods":[["vm",{"loop":2,"body":[{"loop":2,"body":[]},"block"]},"tick"]]} => finished 12: In(0) Vm 2*Edge Block 3*Edge Block Edge Tick Out(0)
100 of {"methods":[[{"loop":2,"body":[{"call":1}]}],["tick"]]} => finished 10: In(0) In(1) Tick Out(1) Edge In(1) Tick Out(1) Edge Out(0)
255 1 0 of {"methods":[[{"call":0}]]} => fuel overflow overflow 256: 256*In(0)
1001 1 1 of {"methods":[[{"loop":1000,"body":[]}]]} => fuel finished finished 1002: In(0) 1000*Edge Out(0)
65538 of {"methods":[["vm"|65535*,"tick"|]]} => finished 65538: In(0) Vm 65535*Tick Out(0)
"#;

fn expect_run(rt: &impl Abort, alloc: Global, script: &[u8], fuels: &str, wanted: &str) {
    let code = runnable(rt, alloc, script);
    let found = run_of(rt, alloc, &code, fuels);
    expect(rt, found.as_str().trim_end(), wanted);
}

#[test]
fn runs_and_their_marks(rt: HostRuntime) -> Result<(), Fail> {
    let alloc = rt.alloc();
    for row in RUNS.lines().skip(1) {
        let (run, wanted) = row.split_once(" => ").expect(&rt, "a run and its marks");
        let (fuels, script) = run.split_once(" of ").expect(&rt, "fuels and a script");
        expect_run(&rt, alloc, &text_of(alloc, script)?, fuels, wanted);
    }
    Ok(())
}

// Each of 256 methods calls the next, so that the most calls are active at once.
#[test]
fn a_chain_of_256_methods_finishes(rt: HostRuntime) -> Result<(), Fail> {
    let alloc = rt.alloc();
    let mut text = String::from_str(alloc, "{\"methods\":[")?;
    let mut wanted = String::from_str(alloc, "finished 512:")?;
    for method in 1..256u64 {
        add_numbered(&rt, &mut text, "[{\"call\":", method, "}],");
    }
    text.push_str("[]]}")?;
    for method in 0..256u64 {
        add_numbered(&rt, &mut wanted, " In(", method, ")");
    }
    for method in 0..256u64 {
        add_numbered(&rt, &mut wanted, " Out(", 255 - method, ")");
    }
    expect_run(&rt, alloc, text.as_bytes(), "512", &wanted);
    Ok(())
}

// A fake that takes so many marks and refuses the next.
#[derive(Drop)]
struct Patience {
    left: u64,
}

impl Steps for Patience {
    type Refusal = u8;

    ghost marked = { λ s m t. Unit {0} };

    ghost refused = { λ s m e t. Unit {0} };

    fn mark(&mut self, _mark: Mark) -> Result<(), u8> {
        if self.left == 0 {
            return Err(7);
        }
        self.left -= 1;
        Ok(())
    }
}

// The most turns of a loop; the call adds two marks.
#[test]
fn a_million_turns_take_a_million_fuel(rt: HostRuntime) -> Result<(), Fail> {
    let code = runnable(
        &rt,
        rt.alloc(),
        br#"{"methods":[[{"loop":1000000,"body":[]}]]}"#,
    );
    let mut runner = runner_of(&rt, rt.alloc(), &code);
    let mut steps = Patience { left: 1_000_002 };
    assert!(rt; matches!(runner.run(&mut steps, 1_000_001), Outcome::OutOfFuel));
    assert!(rt; matches!(runner.run(&mut steps, 1), Outcome::Finished));
    assert!(rt; runner.made() == 1_000_002);
    Ok(())
}

// After two marks the third is refused by a run, and by a step.
fn refuse_third(rt: &impl Abort, runner: &mut Runner<'_>) {
    let mut steps = Patience { left: 2 };
    assert!(rt; matches!(runner.run(&mut steps, 9), Outcome::Refused(7)));
    assert!(rt; matches!(runner.step(&mut steps), Err(7)));
    assert!(rt; runner.made() == 2);
}

#[test]
fn a_refused_mark_is_made_later(rt: HostRuntime) -> Result<(), Fail> {
    let alloc = rt.alloc();
    let code = runnable(&rt, alloc, br#"{"methods":[["native","vm"]]}"#);
    let mut runner = runner_of(&rt, alloc, &code);
    refuse_third(&rt, &mut runner);
    let mut tape = Tape::new(alloc);
    assert!(rt; matches!(runner.run(&mut tape, 2), Outcome::Finished));
    assert!(rt; marks_of(&rt, alloc, &tape.marks).as_str() == "Vm Out(0) ");
    Ok(())
}
