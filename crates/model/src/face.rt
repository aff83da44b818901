// What C calls. The contract in words is the header's, include/model.h.
ghost use Rattle.std.specs.Prelude.{◌≡◌, None};
ghost use Rattle.model.specs.Face.{NewTold, LineTold, AnswerTold, NeedsTold, fault_code, answer_fault_code, new_fault_code};

use crate::handle::CHandle;
use crate::line_model::{AnswerFault, LineFault, LineModel};
use std::alloc::Global;
use system::NewFault;

const NO_MEMORY: isize = -1;

const ANSWER_WAITS: isize = -2;

const ANSWER_TOO_LONG: isize = -3;

const ANSWER_UNWRITTEN: isize = -4;

const NOTHING_WAITS: isize = -5;

const BAD_SIZE: isize = -6;

const NO_MODEL: isize = -7;

const HAS_MODEL: isize = -8;

fn new_fault_code(fault: NewFault) -> isize
    ensures { result ≡ new_fault_code fault }
{
    match fault {
        NewFault::BadSize => BAD_SIZE,
        NewFault::NoMemory => NO_MEMORY,
    }
}

fn fault_code(fault: LineFault) -> isize
    ensures { result ≡ fault_code fault }
{
    match fault {
        LineFault::NoMemory => NO_MEMORY,
        LineFault::AnswerWaits => ANSWER_WAITS,
        LineFault::TooLong(_) => ANSWER_TOO_LONG,
        LineFault::Unwritten => ANSWER_UNWRITTEN,
    }
}

fn answer_fault_code(fault: AnswerFault) -> isize
    ensures { result ≡ answer_fault_code fault }
{
    match fault {
        AnswerFault::NothingWaits => NOTHING_WAITS,
        AnswerFault::TooLong(_) => ANSWER_TOO_LONG,
        AnswerFault::Unwritten => ANSWER_UNWRITTEN,
    }
}

/// Makes a model of these sizes in its place. Returns 0, or a fault.
#[unsafe(no_mangle)]
pub extern "C" fn model_new(
    alloc: Global,
    model: &mut CHandle,
    places: usize,
    slots: usize,
    methods: usize,
) -> isize
    ensures { NewTold result places slots methods model.old.handle.value model.new.handle.value }
{
    if model.is_made() {
        return HAS_MODEL;
    }
    match LineModel::new(alloc, places, slots, methods) {
        Err(fault) => new_fault_code(fault),
        Ok(made) => match Box::new(alloc, made) {
            Err(_) => NO_MEMORY,
            Ok(boxed) => {
                model.put(boxed);
                0
            }
        },
    }
}

/// Plays a line, and puts its answer into the room. Returns the answer's length, or a fault.
#[unsafe(no_mangle)]
pub extern "C" fn model_line(
    alloc: Global,
    model: &mut CHandle,
    line: &[u8],
    answer: &mut [u8],
) -> isize
    ensures { LineTold result line.now model.old.handle.value answer.old model.new.handle.value
        answer.new }
{
    if !model.is_made() {
        return NO_MODEL;
    }
    let mut boxed = model.take(alloc);
    let said = boxed.line(alloc, line, answer);
    model.put(boxed);
    match said {
        Ok(n) => n as isize,
        Err(fault) => fault_code(fault),
    }
}

/// Puts the answer that waits into the room. Returns its length, or a fault.
#[unsafe(no_mangle)]
pub extern "C" fn model_answer(alloc: Global, model: &mut CHandle, answer: &mut [u8]) -> isize
    ensures { AnswerTold result model.old.handle.value answer.old model.new.handle.value
        answer.new }
{
    if !model.is_made() {
        return NO_MODEL;
    }
    let mut boxed = model.take(alloc);
    let said = boxed.take_answer(answer);
    model.put(boxed);
    match said {
        Ok(n) => n as isize,
        Err(fault) => answer_fault_code(fault),
    }
}

/// Returns the length of the answer that waits, or a fault.
#[unsafe(no_mangle)]
pub extern "C" fn model_needs(alloc: Global, model: &mut CHandle) -> isize
    ensures { NeedsTold result model.old.handle.value model.new.handle.value }
{
    if !model.is_made() {
        return NO_MODEL;
    }
    let mut boxed = model.take(alloc);
    let said = boxed.needs();
    model.put(boxed);
    match said {
        Ok(n) => n as isize,
        Err(fault) => answer_fault_code(fault),
    }
}

/// Frees the model, if there is one.
#[unsafe(no_mangle)]
pub extern "C" fn model_free(alloc: Global, model: &mut CHandle)
    ensures { model.new.handle.value ≡ None }
{
    if model.is_made() {
        drop(model.take(alloc));
    }
}
