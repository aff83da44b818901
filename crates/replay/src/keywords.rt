// The keywords of lines.
ghost use Rattle.std.specs.Prelude.{◌≡◌, ◌≤◌, length, drop, option_map, IfSome};
ghost use Rattle.replay.specs.Words.{words, words_after};
ghost use Rattle.replay.specs.Keywords.{word_of, begun, ask_of};

use crate::words::find;
use system::events::Act;

/// The keyword that begins a line. An act whose only argument is its place is its own keyword.
#[derive(Clone, Copy, Debug, PartialEq, Eq, Drop)]
pub(crate) enum Word {
    Size,
    Start,
    At(Act),
    Enter,
    Install,
    Invalidate,
    Round,
    Look,
    Weigh,
    Free,
    Ask,
    Open,
    Tell,
    Operate,
    Close,
    Count,
    State,
    Resolve,
}

/// The word after `ask`.
#[derive(Clone, Copy, Debug, PartialEq, Eq, Drop)]
pub(crate) enum AskWord {
    Depth,
    Top,
    Count,
    Census,
}

/// The keyword that begins the line, and where it ends. Most keywords have three to seven letters and then a space: the function tests
/// these positions before it searches for a space.
#[inline(always)]
pub(crate) fn first_word(line: &[u8]) -> Option<(Word, usize)>
    ensures begun { option_map (λ it. (it.0, words_after (drop it.1 line.now))) result
        ≡ begun (words line.now) }
    ensures bound { IfSome result (λ it. it.1 ≤ length line.now) }
{
    if line.len() > 5 && line[5] == b' ' {
        if let Some(word) = of_five(&line[..5]) {
            return Some((word, 5));
        }
    }
    if line.len() > 4 && line[4] == b' ' {
        if let Some(word) = of_four(&line[..4]) {
            return Some((word, 4));
        }
    }
    if line.len() > 6 && line[6] == b' ' {
        if let Some(word) = of_six(&line[..6]) {
            return Some((word, 6));
        }
    }
    if line.len() > 7 && line[7] == b' ' {
        if let Some(word) = of_seven(&line[..7]) {
            return Some((word, 7));
        }
    }
    if line.len() > 3 && line[3] == b' ' {
        if let Some(word) = of_three(&line[..3]) {
            return Some((word, 3));
        }
    }
    any_word(line)
}

/// The first word, of any length, also where nothing follows it.
#[inline(always)]
fn any_word(line: &[u8]) -> Option<(Word, usize)>
    ensures begun { option_map (λ it. (it.0, words_after (drop it.1 line.now))) result
        ≡ begun (words line.now) }
    ensures bound { IfSome result (λ it. it.1 ≤ length line.now) }
{
    let end = find(b' ', line);
    match word_of(&line[..end]) {
        None => None,
        Some(word) => Some((word, end)),
    }
}

/// The keyword of the text. Each length has a function of its own, which reads a byte once.
#[inline(always)]
fn word_of(text: &[u8]) -> Option<Word>
    ensures { result ≡ word_of text.now }
{
    match text.len() {
        3 => of_three(text),
        4 => of_four(text),
        5 => of_five(text),
        6 => of_six(text),
        7 => of_seven(text),
        8 => of_eight(text),
        10 => of_ten(text),
        _ => None,
    }
}

#[inline(always)]
fn of_three(text: &[u8]) -> Option<Word>
    requires { length text.now ≡ 3 }
    ensures { result ≡ word_of text.now }
{
    match text {
        b"end" => Some(Word::At(Act::End)),
        b"ask" => Some(Word::Ask),
        _ => None,
    }
}

#[inline(always)]
fn of_four(text: &[u8]) -> Option<Word>
    requires { length text.now ≡ 4 }
    ensures { result ≡ word_of text.now }
{
    match text {
        b"edge" => Some(Word::At(Act::Edge)),
        b"wake" => Some(Word::At(Act::Wake)),
        b"take" => Some(Word::At(Act::Take)),
        b"tell" => Some(Word::Tell),
        b"hold" => Some(Word::At(Act::Hold)),
        b"tovm" => Some(Word::At(Act::ToVm)),
        b"open" => Some(Word::Open),
        b"look" => Some(Word::Look),
        b"free" => Some(Word::Free),
        b"exit" => Some(Word::At(Act::Exit)),
        b"size" => Some(Word::Size),
        _ => None,
    }
}

#[inline(always)]
fn of_five(text: &[u8]) -> Option<Word>
    requires { length text.now ≡ 5 }
    ensures { result ≡ word_of text.now }
{
    match text {
        b"enter" => Some(Word::Enter),
        b"leave" => Some(Word::At(Act::Leave)),
        b"begin" => Some(Word::At(Act::Begin)),
        b"cross" => Some(Word::At(Act::Cross)),
        b"clear" => Some(Word::At(Act::Clear)),
        b"close" => Some(Word::Close),
        b"block" => Some(Word::At(Act::Block)),
        b"count" => Some(Word::Count),
        b"stack" => Some(Word::At(Act::Stack)),
        b"start" => Some(Word::Start),
        b"state" => Some(Word::State),
        b"round" => Some(Word::Round),
        b"weigh" => Some(Word::Weigh),
        _ => None,
    }
}

#[inline(always)]
fn of_six(text: &[u8]) -> Option<Word>
    requires { length text.now ≡ 6 }
    ensures { result ≡ word_of text.now }
{
    match text {
        b"change" => Some(Word::At(Act::Change)),
        b"finish" => Some(Word::At(Act::Finish)),
        b"fromvm" => Some(Word::At(Act::FromVm)),
        _ => None,
    }
}

#[inline(always)]
fn of_seven(text: &[u8]) -> Option<Word>
    requires { length text.now ≡ 7 }
    ensures { result ≡ word_of text.now }
{
    match text {
        b"release" => Some(Word::At(Act::Release)),
        b"operate" => Some(Word::Operate),
        b"install" => Some(Word::Install),
        b"resolve" => Some(Word::Resolve),
        _ => None,
    }
}

fn of_eight(text: &[u8]) -> Option<Word>
    requires { length text.now ≡ 8 }
    ensures { result ≡ word_of text.now }
{
    match text {
        b"tonative" => Some(Word::At(Act::ToNative)),
        _ => None,
    }
}

fn of_ten(text: &[u8]) -> Option<Word>
    requires { length text.now ≡ 10 }
    ensures { result ≡ word_of text.now }
{
    match text {
        b"invalidate" => Some(Word::Invalidate),
        _ => None,
    }
}

/// The request that the word after `ask` names.
pub(crate) fn ask_of(text: &[u8]) -> Option<AskWord>
    ensures { result ≡ ask_of text.now }
{
    match text {
        b"depth" => Some(AskWord::Depth),
        b"top" => Some(AskWord::Top),
        b"count" => Some(AskWord::Count),
        b"census" => Some(AskWord::Census),
        _ => None,
    }
}
