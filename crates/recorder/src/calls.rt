//! The words and the numbers of calls in a log.
ghost use Rattle.std.specs.Prelude.{◌≡◌, ◌++◌, ◌∷◌, IfOk, OnOk, map};
ghost use Rattle.desk.specs.JobsFit.{request_of};
ghost use Rattle.recorder.specs.Calls as calls;

use call_log::word::Word;
use operations::job::HandshakeOp;
use operations::{Ask, Request};
use std::alloc::{AllocError, Global};

/// The word for a submit of this request.
pub fn submit_word(request: &Request) -> Word
    ensures { result ≡ calls.submit_word request.now }
{
    match request {
        Request::Census => Word::SubmitCensus,
        Request::Handshake { ask, .. } => match *ask {
            Ask::Depth => Word::SubmitDepth,
            Ask::Top => Word::SubmitTop,
            Ask::CountOf(_) => Word::SubmitCount,
        },
    }
}

/// Appends the serial that a query counts, if it counts one.
fn put_counted(numbers: &mut Vec<u64>, ask: Ask) -> Result<(), AllocError>
    ensures { OnOk result (numbers.new.items ≡ numbers.old.items ++ calls.counted ask) }
{
    match ask {
        Ask::Depth => Ok(()),
        Ask::Top => Ok(()),
        Ask::CountOf(serial) => Ok(numbers.push(serial)?),
    }
}

/// The numbers of a submit: the serial that its query counts, and the targets.
pub fn request_numbers(alloc: Global, request: &Request) -> Result<Vec<u64>, AllocError>
    ensures { IfOk result (λ list. list.items ≡ calls.request_numbers request.now) }
{
    let mut numbers = Vec::new(alloc);
    match request {
        Request::Census => Ok(numbers),
        Request::Handshake { targets, ask } => {
            put_counted(&mut numbers, *ask)?;
            numbers.extend_from_slice(targets.as_slice())?;
            Ok(numbers)
        }
    }
}

/// The word for a reclaim with these jobs.
pub fn reclaim_word<J: HandshakeOp>(jobs: &[J]) -> Word
    ensures { result ≡ calls.reclaim_word (request_of J.whom J.asks jobs.now) }
{
    let Some((first, _)) = jobs.split_first() else {
        return Word::Reclaim;
    };
    match first.ask_of() {
        Ask::Depth => Word::ReclaimDepth,
        Ask::Top => Word::ReclaimTop,
        Ask::CountOf(_) => Word::ReclaimCount,
    }
}

/// Appends the names of the jobs.
fn put_names<J: HandshakeOp>(numbers: &mut Vec<u64>, jobs: &[J]) -> Result<(), AllocError>
    ensures { OnOk result (numbers.new.items ≡ numbers.old.items ++ map J.whom jobs.now) }
{
    for job in jobs {
        numbers.push(job.target_of())?;
    }
    Ok(())
}

/// The numbers of a reclaim: the serial, and the numbers of the jobs' handshake.
pub fn reclaim_numbers<J: HandshakeOp>(
    alloc: Global,
    serial: u64,
    jobs: &[J],
) -> Result<Vec<u64>, AllocError>
    ensures { IfOk result (λ list. list.items
        ≡ serial ∷ calls.handshake_numbers (request_of J.whom J.asks jobs.now)) }
{
    let mut numbers = Vec::new(alloc);
    numbers.push(serial)?;
    if let Some((first, _)) = jobs.split_first() {
        put_counted(&mut numbers, first.ask_of())?;
        put_names(&mut numbers, jobs)?;
    }
    Ok(numbers)
}

/// Appends the pairs.
fn put_pairs(numbers: &mut Vec<u64>, list: &[(u64, u64)]) -> Result<(), AllocError>
    ensures { OnOk result (numbers.new.items ≡ numbers.old.items ++ calls.pairs list.now) }
{
    for pair in list {
        numbers.push(pair.0)?;
        numbers.push(pair.1)?;
    }
    Ok(())
}

/// Names and replies as numbers.
pub fn reply_numbers(alloc: Global, replies: &[(u64, u64)]) -> Result<Vec<u64>, AllocError>
    ensures { IfOk result (λ list. list.items ≡ calls.pairs replies.now) }
{
    let mut numbers = Vec::new(alloc);
    put_pairs(&mut numbers, replies)?;
    Ok(numbers)
}

/// The number of a census and what it counted, as numbers.
pub fn census_numbers(
    alloc: Global,
    number: u64,
    counts: &[(u64, u32)],
) -> Result<Vec<u64>, AllocError>
    ensures { IfOk result (λ list. list.items ≡ number ∷ calls.pairs counts.now) }
{
    let mut numbers = Vec::new(alloc);
    numbers.push(number)?;
    for count in counts {
        numbers.push(count.0)?;
        numbers.push(count.1 as u64)?;
    }
    Ok(numbers)
}
