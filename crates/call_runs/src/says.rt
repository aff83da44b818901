//! The recorded answer of a call, compared with the answers of its events.
ghost use Rattle.std.specs.Prelude.{◌≡◌, ◌∷◌, []};
ghost use Rattle.call_log.specs.declared.entry.Entry.{Entry as TheEntry};
ghost use Rattle.call_runs.specs.Says.{says, says_by, refusal_word, fits, is_done, answers, answers_by, are_counts, counts_said, counts_behind, is_head, census_by};

use call_log::entry::Entry;
use call_log::word::Word;
use system::answers::{Answer, CodeCount, Refusal};
use thread_state::State;

fn says_by(answer: Option<Word>, values: &[u64], word: Word, numbers: &[u64]) -> bool
    ensures { result ≡ says_by answer values.now word numbers.now }
{
    match answer {
        None => true,
        Some(said) => said.text() == word.text() && values == numbers,
    }
}

/// Whether the recorded answer is this word with these numbers, or the call hadn't returned.
pub(crate) fn says(entry: &Entry, word: Word, numbers: &[u64]) -> bool
    ensures { result ≡ says entry.now word numbers.now }
{
    says_by(entry.answer, entry.values.as_slice(), word, numbers)
}

fn refusal_word(refusal: Refusal) -> Word
    ensures { result ≡ refusal_word refusal }
{
    match refusal {
        Refusal::Illegal(State::Vacant) => Word::Vacant,
        Refusal::Illegal(_) => Word::Illegal,
        Refusal::NoSuchPlace => Word::NoSuchPlace,
        Refusal::Publishing => Word::Publishing,
        Refusal::NotBegun => Word::NotBegun,
        Refusal::ChangesLeft => Word::ChangesLeft,
        Refusal::Held => Word::Held,
        Refusal::NoSuchMethod => Word::NoSuchMethod,
        Refusal::Unknown => Word::Unknown,
        Refusal::Unpublished => Word::Unpublished,
        Refusal::DepthFull => Word::DepthFull,
        Refusal::NotOf => Word::NotOf,
        Refusal::EmptyStack => Word::EmptyStack,
        Refusal::StackNotEmpty => Word::StackNotEmpty,
        Refusal::OperationPending => Word::OperationPending,
        Refusal::NotDone => Word::NotDone,
        Refusal::NothingOpen => Word::NothingOpen,
        Refusal::NotTold => Word::NotTold,
        Refusal::AlreadyDone => Word::AlreadyDone,
        Refusal::NotSafe => Word::NotSafe,
        Refusal::NotHeld => Word::NotHeld,
        Refusal::SafepointOpen => Word::SafepointOpen,
        Refusal::PlacesFull => Word::PlacesFull,
        Refusal::Spent => Word::Spent,
        Refusal::TableFull => Word::TableFull,
        Refusal::SerialsSpent => Word::SerialsSpent,
        Refusal::NotInUse => Word::NotInUse,
        Refusal::NotNotEntrant => Word::NotNotEntrant,
        Refusal::NotZombie => Word::NotZombie,
        Refusal::QueueFull => Word::QueueFull,
        Refusal::NoTargets => Word::NoTargets,
        Refusal::BadTargets => Word::BadTargets,
        Refusal::AlreadyOpen => Word::AlreadyOpen,
        Refusal::QueueEmpty => Word::QueueEmpty,
        Refusal::AlreadyTold => Word::AlreadyTold,
        Refusal::NotAllHeld => Word::NotAllHeld,
    }
}

/// Whether the recorded answer is that of the call's single event.
pub(crate) fn fits(entry: &Entry, answer: &Answer) -> bool
    ensures { result ≡ fits entry.now answer.now }
{
    match answer {
        Answer::Done => says(entry, Word::Ok, &[]),
        Answer::Go => says(entry, Word::Go, &[]),
        Answer::Stop(n) => says(entry, Word::Stop, &[*n]),
        Answer::Code(serial) => says(entry, Word::Code, &[*serial]),
        Answer::Asked(n) => says(entry, Word::Asked, &[*n]),
        Answer::Opened(n, _) => says(entry, Word::Open, &[*n]),
        Answer::Told => says(entry, Word::Told, &[]),
        Answer::Gone => says(entry, Word::Gone, &[]),
        Answer::Closed(n) => says(entry, Word::Closed, &[*n]),
        Answer::Refused(refusal) => says(entry, refusal_word(*refusal), &[]),
        _ => false,
    }
}

pub(crate) fn is_done(answer: &Answer) -> bool
    ensures { result ≡ is_done answer.now }
{
    match answer {
        Answer::Done => true,
        _ => false,
    }
}

fn answers_by(answer: Option<Word>, word: Word) -> bool
    ensures { result ≡ answers_by answer word }
{
    match answer {
        None => true,
        Some(said) => said.text() == word.text(),
    }
}

/// Whether the recorded answer is this word, with any numbers, or the call hadn't returned.
pub(crate) fn answers(entry: &Entry, word: Word) -> bool
    ensures { result ≡ answers entry.now word }
{
    answers_by(entry.answer, word)
}

/// Whether the numbers are the serials and counts, alternating.
fn are_counts(counts: &[CodeCount], numbers: &[u64]) -> bool
    ensures { result ≡ are_counts counts.now numbers.now }
{
    let mut counts = counts;
    let mut numbers = numbers;
    while let [counted, more @ ..] = counts {
        match numbers {
            [serial, count, others @ ..]
                if *serial == counted.serial && *count == counted.count as u64 => {
                numbers = others;
            }
            _ => return false,
        }
        counts = more;
    }
    numbers.is_empty()
}

/// Whether the recorded answer has the number of the operation and then the counts of the census.
pub(crate) fn counts(entry: &Entry, counts: &[CodeCount]) -> bool
    ensures { result ≡ counts_said entry.now counts.now }
{
    match entry.answer {
        None => true,
        Some(said) => {
            said.text() == Word::Census.text() && counts_behind(entry.values.as_slice(), counts)
        }
    }
}

fn counts_behind(values: &[u64], counts: &[CodeCount]) -> bool
    ensures { result ≡ counts_behind values.now counts.now }
{
    match values {
        [] => false,
        [_, others @ ..] => are_counts(counts, others),
    }
}

fn is_head(values: &[u64], n: u64) -> bool
    ensures { result ≡ is_head values.now n }
{
    match values {
        [] => false,
        [first, ..] => *first == n,
    }
}

fn census_by(answer: Option<Word>, values: &[u64], n: u64) -> bool
    ensures { result ≡ census_by answer values.now n }
{
    match answer {
        None => true,
        Some(said) => said.text() == Word::Census.text() && is_head(values, n),
    }
}

/// Whether the recorded answer is that of the census with this number.
pub fn is_census(entry: &Entry, n: u64) -> bool
    ensures { result ≡ census_by entry.now.answer entry.now.values n }
{
    census_by(entry.answer, entry.values.as_slice(), n)
}
