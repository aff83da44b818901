// Tests of what no clause says: that calls succeed, and worked examples. A test plays the rows of a text (`test_texts`): calls with their
// answers, as Debug writes them.
use std::alloc::Global;
use std::fmt::Debug;
use std::process::Abort;
use test_texts::rows::steps_of;

mod codes;
mod counts;
mod jobs;
mod requests;
mod stacks;
mod states;

/// The object that answers calls. A call is a word and numbers.
trait Player {
    fn answer<R: Abort>(&mut self, rt: &R, alloc: Global, call: &str, numbers: &[u64]) -> String;
}

fn play<P: Player>(rt: &impl Abort, alloc: Global, player: &mut P, rows: &str) {
    let steps = steps_of(alloc, rows).expect(rt, "no memory");
    for step in steps.lines() {
        let (words, expected) = step.split_once(" => ").unwrap_or((step, "an answer"));
        let answer = answer_to(rt, alloc, player, words);
        compare(rt, step, answer, expected);
    }
}

fn answer_to<P: Player>(rt: &impl Abort, alloc: Global, player: &mut P, words: &str) -> String {
    let (call, rest) = words.split_once(' ').unwrap_or((words, ""));
    let numbers = numbers(rt, alloc, rest);
    player.answer(rt, alloc, call, numbers.as_slice())
}

fn numbers(rt: &impl Abort, alloc: Global, words: &str) -> Vec<u64> {
    let mut numbers = Vec::new(alloc);
    for word in words.split_whitespace() {
        numbers.push(number(rt, word)).expect(rt, "no memory");
    }
    numbers
}

fn number(rt: &impl Abort, word: &str) -> u64 {
    word.parse::<u64>().expect(rt, "no number")
}

fn number_at(rt: &impl Abort, numbers: &[u64], place: usize) -> u64 {
    numbers.get(place).copied().expect(rt, "too few numbers")
}

// Asserts that a step has its answer. The message isn't formatted, because that would cost the prover much.
fn compare(rt: &impl Abort, step: &str, answer: String, expected: &str) {
    if answer.as_str() != expected {
        let mut told = answer;
        add(rt, &mut told, " was answered, not ");
        add(rt, &mut told, step);
        rt.panic(told.as_str());
    }
}

fn add(rt: &impl Abort, text: &mut String, more: &str) {
    text.push_str(more).expect(rt, "no memory");
}

fn joined(rt: &impl Abort, start: String, end: String) -> String {
    let mut both = start;
    add(rt, &mut both, " ");
    add(rt, &mut both, end.as_str());
    both
}

fn told<T: Debug + Drop>(rt: &impl Abort, alloc: Global, value: T) -> String {
    format!(in alloc; "{value:?}").expect(rt, "no memory")
}
