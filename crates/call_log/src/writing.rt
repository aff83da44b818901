//! How a call is written.
ghost use Rattle.std.specs.Prelude.{◌≡◌, ◌++◌, ◌∷◌, [], OnOk, codes, decimal};
ghost use Rattle.std.specs.List.{flat_map};
ghost use Rattle.call_log.specs.Spelled.{after_text, answer_text, numbers_text, job_text, jobs_text, head_text, tail_text, line_text, first_text, size_text, header_text};

use crate::entry::Entry;
use crate::lists::Job;
use crate::word::Word;
use itoa::Buffer;
use std::alloc::AllocError;

fn put_number(text: &mut Vec<u8>, n: u64) -> Result<(), AllocError>
    ensures { OnOk result (text.new.items ≡ text.old.items ++ decimal n) }
{
    let mut buffer = Buffer::new();
    text.extend_from_slice(buffer.format(n).as_bytes())
}

/// Appends each number after a space.
fn put_numbers(text: &mut Vec<u8>, numbers: &[u64]) -> Result<(), AllocError>
    ensures { OnOk result (text.new.items ≡ text.old.items ++ numbers_text numbers.now) }
{
    for n in numbers {
        text.push(b' ')?;
        put_number(text, *n)?;
    }
    Ok(())
}

fn put_job(text: &mut Vec<u8>, job: Job) -> Result<(), AllocError>
    ensures { OnOk result (text.new.items ≡ text.old.items ++ job_text job) }
{
    text.push(b' ')?;
    put_number(text, job.op)?;
    text.push(b' ')?;
    put_number(text, job.name)?;
    text.push(b' ')?;
    put_number(text, job.reply)?;
    text.push(b' ')?;
    put_number(text, job.ticket)
}

/// Appends the jobs after a semicolon; nothing if there are none.
fn put_jobs(text: &mut Vec<u8>, jobs: &[Job]) -> Result<(), AllocError>
    ensures { OnOk result (text.new.items ≡ text.old.items ++ jobs_text jobs.now) }
{
    if jobs.is_empty() {
        return Ok(());
    }
    text.extend_from_slice(b" ;")?;
    for job in jobs {
        put_job(text, *job)?;
    }
    Ok(())
}

fn put_after(text: &mut Vec<u8>, after: Option<u64>) -> Result<(), AllocError>
    ensures { OnOk result (text.new.items ≡ text.old.items ++ after_text after) }
{
    match after {
        None => text.extend_from_slice(b"-"),
        Some(ticket) => put_number(text, ticket),
    }
}

fn put_answer(text: &mut Vec<u8>, answer: Option<Word>) -> Result<(), AllocError>
    ensures { OnOk result (text.new.items ≡ text.old.items ++ answer_text answer) }
{
    match answer {
        None => text.extend_from_slice(b"?"),
        Some(word) => text.extend_from_slice(word.text()),
    }
}

#[tactic(auto, unfolding(crate::specs::Spelled::head_text))]
fn put_head(text: &mut Vec<u8>, entry: &Entry) -> Result<(), AllocError>
    ensures { OnOk result (text.new.items ≡ text.old.items ++ head_text entry.now) }
{
    put_number(text, entry.stream)?;
    text.push(b' ')?;
    put_number(text, entry.before)?;
    text.push(b' ')?;
    put_after(text, entry.after)?;
    text.push(b' ')?;
    text.extend_from_slice(entry.call.text())?;
    put_numbers(text, entry.args.as_slice())
}

#[tactic(auto, unfolding(crate::specs::Spelled::tail_text))]
fn put_tail(text: &mut Vec<u8>, entry: &Entry) -> Result<(), AllocError>
    ensures { OnOk result (text.new.items ≡ text.old.items ++ tail_text entry.now) }
{
    text.extend_from_slice(b" : ")?;
    put_answer(text, entry.answer)?;
    put_numbers(text, entry.values.as_slice())?;
    put_jobs(text, entry.jobs.as_slice())
}

/// Appends the line of a call to the text, without a newline.
pub fn put_line(text: &mut Vec<u8>, entry: &Entry) -> Result<(), AllocError>
    ensures { OnOk result (text.new.items ≡ text.old.items ++ line_text entry.now) }
{
    put_head(text, entry)?;
    put_tail(text, entry)
}

/// Appends the second line of a log to the text, without a newline.
pub(crate) fn put_size(
    text: &mut Vec<u8>,
    places: u64,
    slots: u64,
    methods: u64,
) -> Result<(), AllocError>
    ensures { OnOk result (text.new.items ≡ text.old.items ++ size_text places slots methods) }
{
    text.extend_from_slice(b"size ")?;
    put_number(text, places)?;
    text.push(b' ')?;
    put_number(text, slots)?;
    text.push(b' ')?;
    put_number(text, methods)
}

/// Appends the first line of a log to the text, without a newline: it says whether jobs are recorded.
fn put_first(text: &mut Vec<u8>, jobs: bool) -> Result<(), AllocError>
    ensures { OnOk result (text.new.items ≡ text.old.items ++ first_text jobs) }
{
    if jobs {
        text.extend_from_slice(b"witness 1 jobs")
    } else {
        text.extend_from_slice(b"witness 1")
    }
}

/// Appends the first two lines of a log to the text: whether jobs are recorded, and the sizes of the system.
pub fn put_header(
    text: &mut Vec<u8>,
    jobs: bool,
    places: u64,
    slots: u64,
    methods: u64,
) -> Result<(), AllocError>
    ensures { OnOk result (text.new.items ≡ text.old.items
        ++ header_text jobs places slots methods) }
{
    put_first(text, jobs)?;
    text.push(b'\n')?;
    put_size(text, places, slots, methods)?;
    Ok(text.push(b'\n')?)
}
