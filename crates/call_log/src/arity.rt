//! How many numbers follow a word.
ghost use Rattle.std.specs.Prelude.{◌≡◌, is_some};
ghost use Rattle.call_log.specs.Arity.{call_range, answer_range, is_within};

use crate::word::Word;

/// The least and the greatest count of arguments of a call's word; None if the word isn't a call's.
fn call_range(word: Word) -> Option<(usize, usize)>
    ensures { result ≡ call_range word }
{
    match word {
        Word::Start => Some((0, 0)),
        Word::Call => Some((2, 3)),
        Word::Ret => Some((1, 1)),
        Word::Edge => Some((1, 1)),
        Word::ToVm => Some((1, 1)),
        Word::FromVm => Some((1, 1)),
        Word::ToNative => Some((1, 1)),
        Word::FromNative => Some((1, 1)),
        Word::Block => Some((1, 1)),
        Word::Unblock => Some((1, 1)),
        Word::Publish => Some((1, 1)),
        Word::Stop => Some((1, 1)),
        Word::Exit => Some((1, 1)),
        Word::Install => Some((1, 1)),
        Word::Invalidate => Some((1, 1)),
        Word::Live => Some((0, 0)),
        Word::Replies => Some((1, 1)),
        Word::SubmitDepth => Some((0, 64)),
        Word::SubmitTop => Some((0, 64)),
        Word::SubmitCount => Some((1, 65)),
        Word::SubmitCensus => Some((0, 0)),
        Word::Open => Some((0, 0)),
        Word::Tell => Some((1, 1)),
        Word::Hold => Some((1, 1)),
        Word::Serve => Some((1, 1)),
        Word::Release => Some((1, 1)),
        Word::Operate => Some((0, 0)),
        Word::Close => Some((0, 1)),
        Word::Drive => Some((0, 0)),
        Word::DriveFour => Some((0, 0)),
        Word::Reclaim => Some((1, 1)),
        Word::ReclaimDepth => Some((2, 65)),
        Word::ReclaimTop => Some((2, 65)),
        Word::ReclaimCount => Some((3, 66)),
        _ => None,
    }
}

/// The least and the greatest count of values after an answer's word; None if the word isn't an answer's.
fn answer_range(word: Word) -> Option<(usize, usize)>
    ensures { result ≡ answer_range word }
{
    match word {
        Word::Ok => Some((0, 0)),
        Word::Thread => Some((2, 2)),
        Word::Compiled => Some((1, 1)),
        Word::Interpreted => Some((0, 0)),
        Word::Go => Some((0, 0)),
        Word::Stop => Some((1, 1)),
        Word::Served => Some((0, 0)),
        Word::Exited => Some((1, 1)),
        Word::ServedExited => Some((1, 1)),
        Word::Code => Some((1, 1)),
        Word::Names => Some((0, 64)),
        Word::Replies => Some((0, 128)),
        Word::Asked => Some((1, 1)),
        Word::Open => Some((1, 1)),
        Word::Told => Some((0, 0)),
        Word::Gone => Some((0, 0)),
        Word::Census => Some((1, 2049)),
        Word::Handshake => Some((1, 1)),
        Word::Closed => Some((1, 1)),
        Word::Freed => Some((0, 0)),
        Word::Used => Some((1, 1)),
        Word::Late => Some((1, 1)),
        Word::NoSuchPlace => Some((0, 0)),
        Word::Illegal => Some((0, 0)),
        Word::Vacant => Some((0, 0)),
        Word::Publishing => Some((0, 0)),
        Word::Held => Some((0, 0)),
        Word::NoSuchMethod => Some((0, 0)),
        Word::Unknown => Some((0, 0)),
        Word::Unpublished => Some((0, 0)),
        Word::DepthFull => Some((0, 0)),
        Word::NotOf => Some((0, 0)),
        Word::EmptyStack => Some((0, 0)),
        Word::StackNotEmpty => Some((0, 0)),
        Word::OperationPending => Some((0, 0)),
        Word::NotDone => Some((0, 0)),
        Word::NothingOpen => Some((0, 0)),
        Word::NotTold => Some((0, 0)),
        Word::AlreadyDone => Some((0, 0)),
        Word::NotSafe => Some((0, 0)),
        Word::NotHeld => Some((0, 0)),
        Word::SafepointOpen => Some((0, 0)),
        Word::PlacesFull => Some((0, 0)),
        Word::Spent => Some((0, 0)),
        Word::TableFull => Some((0, 0)),
        Word::SerialsSpent => Some((0, 0)),
        Word::NotInUse => Some((0, 0)),
        Word::NotNotEntrant => Some((0, 0)),
        Word::QueueFull => Some((0, 0)),
        Word::NoTargets => Some((0, 0)),
        Word::BadTargets => Some((0, 0)),
        Word::AlreadyOpen => Some((0, 0)),
        Word::QueueEmpty => Some((0, 0)),
        Word::AlreadyTold => Some((0, 0)),
        Word::NotAllHeld => Some((0, 0)),
        Word::NotBegun => Some((0, 0)),
        Word::ChangesLeft => Some((0, 0)),
        Word::NotZombie => Some((0, 0)),
        Word::Question => Some((0, 0)),
        _ => None,
    }
}

fn is_within(range: Option<(usize, usize)>, count: usize) -> bool
    ensures { result ≡ is_within range count }
{
    match range {
        None => false,
        Some((least, most)) => least <= count && count <= most,
    }
}

/// Whether the word is the name of a call.
pub(crate) fn is_call(word: Word) -> bool
    ensures { result ≡ is_some (call_range word) }
{
    call_range(word).is_some()
}

/// Whether the word is an answer.
pub(crate) fn is_answer(word: Word) -> bool
    ensures { result ≡ is_some (answer_range word) }
{
    answer_range(word).is_some()
}

/// Whether a call with this word takes this count of arguments.
pub(crate) fn takes(word: Word, count: usize) -> bool
    ensures { result ≡ is_within (call_range word) count }
{
    is_within(call_range(word), count)
}

/// Whether an answer with this word has this count of values.
pub(crate) fn says(word: Word, count: usize) -> bool
    ensures { result ≡ is_within (answer_range word) count }
{
    is_within(answer_range(word), count)
}
