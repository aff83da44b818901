// The text of replies.
ghost use Rattle.std.specs.Prelude.{◌≡◌, ◌++◌, ◌∷◌, ◌+◌, ◌<◌, ◌≤◌, not, [], true, false, OnOk, OnErr, codes, decimal, length, unsigned_abs, vec_len, vec_capacity};
ghost use Rattle.std.specs.List.{flat_map};
ghost use Rattle.system.specs.declared.answers.Answer.TheVariants as answers;
ghost use Rattle.replay.specs.Room.{is_short, is_short_reply};
ghost use Rattle.replay.specs.Printed.{refusal_text, signed_text, frame_text, counted_text, answer_text, reply_text, ending_text, is_list};

mod names;
mod numbers;

use self::names::{put_code_state, put_opened, put_refusal};
use self::numbers::{put_counted, put_last_number, put_number, put_text};
use crate::engine::Reply;
use frames::Frame;
use std::alloc::AllocError;
use system::answers::{Answer, CodeCount, Refusal};

/// The most bytes that the line of an answer takes, unless the answer is a list.
const MOST: usize = 97;

/// The most bytes that a frame takes, or a code with its count.
const FRAME: usize = 82;

/// The words of a line of a thread, up to its place.
#[inline(always)]
fn put_thread(text: &mut Vec<u8>, name: u64)
    requires room { vec_len text.old + 54 ≤ vec_capacity text.old }
    ensures text { text.new.items ≡ text.old.items
        ++ (codes "thread " ++ decimal name ++ codes " place ") }
    ensures grows { vec_len text.new ≤ vec_len text.old + 54 }
    ensures kept { vec_capacity text.old ≤ vec_capacity text.new }
{
    put_counted(text, b"thread ", name);
    put_text(text, b" place ")
}

/// The words of a line of a change, up to the number after its sign.
#[inline(always)]
fn put_change(text: &mut Vec<u8>, serial: u64, by: i32)
    requires room { vec_len text.old + 49 ≤ vec_capacity text.old }
    ensures text { text.new.items ++ decimal (unsigned_abs by) ≡ text.old.items
        ++ (codes "change " ++ decimal serial ++ codes " " ++ signed_text by) }
    ensures grows { vec_len text.new ≤ vec_len text.old + 49 }
    ensures kept { vec_capacity text.old ≤ vec_capacity text.new }
{
    put_counted(text, b"change ", serial);
    if by < 0 {
        put_text(text, b" -")
    } else {
        put_text(text, b" +")
    }
}

/// Puts the line of a refusal. This is a function of its own, so that the frequent lines stay in one function.
#[inline(never)]
fn put_refused(text: &mut Vec<u8>, why: Refusal)
    requires room { vec_len text.old + 41 ≤ vec_capacity text.old }
    ensures text { text.new.items ≡ text.old.items
        ++ ((codes "refused " ++ refusal_text why) ++ 10 ∷ []) }
    ensures grows { vec_len text.new ≤ vec_len text.old + 41 }
    ensures kept { vec_capacity text.old ≤ vec_capacity text.new }
{
    put_text(text, b"refused ");
    put_refusal(text, why);
    put_text(text, b"\n");
}

/// The part of a line that is missing after the words that were put.
#[derive(Clone, Copy, Debug, PartialEq, Eq, Drop)]
pub(crate) enum Ending {
    /// Nothing: the words were the line.
    Whole,
    /// A number.
    Number(u64),
    /// All: the answer is a list, and nothing was put.
    List,
}

/// Puts a word that stands before the last number of a line.
#[inline(always)]
fn put_before(text: &mut Vec<u8>, word: &[u8], n: u64) -> Ending
    requires room { vec_len text.old + length word.now ≤ vec_capacity text.old }
    ensures ending { result ≡ Ending.Number n }
    ensures text { text.new.items ≡ text.old.items ++ word.now }
    ensures grows { vec_len text.new ≤ vec_len text.old + length word.now }
    ensures kept { vec_capacity text.old ≤ vec_capacity text.new }
{
    put_text(text, word);
    Ending::Number(n)
}

/// Puts the words of an answer up to its last number. All lines with one number put that number at one place.
#[inline(always)]
fn put_words(text: &mut Vec<u8>, answer: &Answer) -> Ending
    requires room { vec_len text.old + 56 ≤ vec_capacity text.old }

    ensures list { is_list result ≡ not (is_short answer.now) }
    ensures text { is_short answer.now ≡ true → text.new.items ++ ending_text result
        ≡ text.old.items ++ (answer_text answer.now ++ 10 ∷ []) }
    ensures none { is_short answer.now ≡ false → text.new.items ≡ text.old.items }
    ensures grows { vec_len text.new ≤ vec_len text.old + 56 }
    ensures kept { vec_capacity text.old ≤ vec_capacity text.new }
{
    match answer {
        Answer::Done => put_text(text, b"ok\n"),
        Answer::Thread(name, place) => {
            put_thread(text, *name);
            return Ending::Number(*place as u64);
        }
        Answer::Exited(name) => return put_before(text, b"exited ", *name),
        Answer::Changed(serial, by) => {
            put_change(text, *serial, *by);
            return Ending::Number(by.unsigned_abs() as u64);
        }
        Answer::NoChange => put_text(text, b"change none\n"),
        Answer::Go => put_text(text, b"go\n"),
        Answer::Stop(operation) => return put_before(text, b"stop ", *operation),
        Answer::Entered => put_text(text, b"entered\n"),
        Answer::WrongMethod => put_text(text, b"wrong method\n"),
        Answer::Reply(n) => return put_before(text, b"reply ", *n),
        Answer::Frames(_) | Answer::Census(_) => return Ending::List,
        Answer::Code(serial) => return put_before(text, b"code ", *serial),
        Answer::NoCode => put_text(text, b"none\n"),
        Answer::Clear => put_text(text, b"clear\n"),
        Answer::Late => put_text(text, b"late\n"),
        Answer::NotLooked(place) => return put_before(text, b"not looked ", *place as u64),
        Answer::Used(n) => return put_before(text, b"used ", *n as u64),
        Answer::Retired => put_text(text, b"retired\n"),
        Answer::Asked(operation) => return put_before(text, b"asked ", *operation),
        Answer::Opened(operation, kind) => put_opened(text, *operation, *kind),
        Answer::Closed(operation) => return put_before(text, b"closed ", *operation),
        Answer::Told => put_text(text, b"told\n"),
        Answer::Gone => put_text(text, b"gone\n"),
        Answer::Count(n) => return put_before(text, b"count ", *n as u64),
        Answer::State(state) => put_code_state(text, *state),
        Answer::Refused(why) => put_refused(text, *why),
    }
    Ending::Whole
}

/// Puts the line of an answer that is no list, for which there is room. For a list it puts nothing and returns `false`.
#[inline(always)]
fn put_answer(text: &mut Vec<u8>, answer: &Answer) -> bool
    requires room { vec_len text.old + 97 ≤ vec_capacity text.old }

    ensures short { result ≡ is_short answer.now }
    ensures text { result ≡ true
        → text.new.items ≡ text.old.items ++ (answer_text answer.now ++ 10 ∷ []) }
    ensures list { result ≡ false → text.new.items ≡ text.old.items }
    ensures grows { vec_len text.new ≤ vec_len text.old + 97 }
    ensures kept { vec_capacity text.old ≤ vec_capacity text.new }
{
    match put_words(text, answer) {
        Ending::Whole => true,
        Ending::Number(n) => {
            put_last_number(text, n);
            true
        }
        Ending::List => false,
    }
}

/// Puts the line of a reply that is no list, for which there is room. For a list it puts nothing and returns `false`.
#[inline(always)]
pub(crate) fn put_short(text: &mut Vec<u8>, reply: &Reply) -> bool
    requires room { vec_len text.old + 97 ≤ vec_capacity text.old }

    ensures short { result ≡ is_short_reply reply.now }
    ensures text { result ≡ true
        → text.new.items ≡ text.old.items ++ (reply_text reply.now ++ 10 ∷ []) }
    ensures list { result ≡ false → text.new.items ≡ text.old.items }
    ensures grows { vec_len text.new ≤ vec_len text.old + 97 }
    ensures kept { vec_capacity text.old ≤ vec_capacity text.new }
{
    match reply {
        Reply::BadLine => put_text(text, b"bad line\n"),
        Reply::BadSize => put_text(text, b"refused BadSize\n"),
        Reply::Answered(answer) => return put_answer(text, answer),
    }
    true
}

fn put_frame(text: &mut Vec<u8>, frame: Frame) -> Result<(), AllocError>
    ensures text { OnOk result (text.new.items ≡ text.old.items ++ frame_text frame) }
    ensures kept { vec_capacity text.old ≤ vec_capacity text.new }
{
    text.reserve(FRAME)?;
    put_counted(text, b" ", frame.method as u64);
    put_text(text, b":");
    match frame.code {
        None => put_text(text, b"i"),
        Some(code) => put_number(text, code.serial),
    }
    Ok(())
}

fn put_frames(text: &mut Vec<u8>, frames: &[Frame]) -> Result<(), AllocError>
    ensures text { OnOk result (text.new.items ≡ text.old.items ++ codes "stack"
        ++ flat_map frame_text frames.now) }
    ensures kept { vec_capacity text.old ≤ vec_capacity text.new }
{
    text.extend_from_slice(b"stack")?;
    for frame in frames {
        put_frame(text, *frame)?;
    }
    Ok(())
}

fn put_code_count(text: &mut Vec<u8>, counted: CodeCount) -> Result<(), AllocError>
    ensures text { OnOk result (text.new.items ≡ text.old.items ++ counted_text counted) }
    ensures kept { vec_capacity text.old ≤ vec_capacity text.new }
{
    text.reserve(FRAME)?;
    put_counted(text, b" ", counted.serial);
    put_counted(text, b":", counted.count as u64);
    Ok(())
}

fn put_census(text: &mut Vec<u8>, counts: &[CodeCount]) -> Result<(), AllocError>
    ensures text { OnOk result (text.new.items ≡ text.old.items ++ codes "census"
        ++ flat_map counted_text counts.now) }
    ensures kept { vec_capacity text.old ≤ vec_capacity text.new }
{
    text.extend_from_slice(b"census")?;
    for counted in counts {
        put_code_count(text, *counted)?;
    }
    Ok(())
}

/// Puts the line of a stack.
pub(crate) fn put_stack_line(text: &mut Vec<u8>, frames: &[Frame]) -> Result<(), AllocError>
    ensures text { OnOk result (text.new.items ≡ text.old.items
        ++ (answer_text (answers.Frames frames.now) ++ 10 ∷ [])) }
    ensures kept { vec_capacity text.old ≤ vec_capacity text.new }
{
    put_frames(text, frames)?;
    Ok(text.push(b'\n')?)
}

/// Puts the line of a census.
pub(crate) fn put_census_line(text: &mut Vec<u8>, counts: &[CodeCount]) -> Result<(), AllocError>
    ensures text { OnOk result (text.new.items ≡ text.old.items
        ++ (answer_text (answers.Census counts.now) ++ 10 ∷ [])) }
    ensures kept { vec_capacity text.old ≤ vec_capacity text.new }
{
    put_census(text, counts)?;
    Ok(text.push(b'\n')?)
}

/// Puts the line of a reply that is a list.
fn put_list(text: &mut Vec<u8>, reply: &Reply) -> Result<(), AllocError>
    requires { is_short_reply reply.now ≡ false }
    ensures text { OnOk result (text.new.items ≡ text.old.items
        ++ (reply_text reply.now ++ 10 ∷ [])) }
    ensures kept { vec_capacity text.old ≤ vec_capacity text.new }
{
    match reply {
        Reply::Answered(Answer::Frames(frames)) => put_stack_line(text, frames.as_slice()),
        Reply::Answered(Answer::Census(counts)) => put_census_line(text, counts.as_slice()),
        _ => unreachable!(),
    }
}

/// Appends the line of text for a reply to the text.
#[inline(always)]
pub fn put_reply(text: &mut Vec<u8>, reply: &Reply) -> Result<(), AllocError>
    ensures text { OnOk result (text.new.items ≡ text.old.items
        ++ (reply_text reply.now ++ 10 ∷ [])) }
    ensures grows { is_short_reply reply.now ≡ true
        → OnOk result (vec_len text.new ≤ vec_len text.old + 97) }
    ensures room { is_short_reply reply.now ≡ true
        → OnErr result (vec_capacity text.old < vec_len text.old + 97) }
    ensures kept { vec_capacity text.old ≤ vec_capacity text.new }
{
    text.reserve(MOST)?;
    if put_short(text, reply) {
        Ok(())
    } else {
        put_list(text, reply)
    }
}
