//! Reads an act from its words.
use operations::Ask;
use parties::acts::Act;

// An act without a number.
fn plain_act(word: &str) -> Option<Act> {
    let act = match word {
        "start" => Act::Start,
        "exit" => Act::Exit,
        "name" => Act::Name,
        "place" => Act::Place,
        "state" => Act::State,
        "ret" => Act::Ret,
        "back_edge" => Act::BackEdge,
        "publish" => Act::Publish,
        "to_vm" => Act::ToVm,
        "from_vm" => Act::FromVm,
        "to_native" => Act::ToNative,
        "from_native" => Act::FromNative,
        "block" => Act::Block,
        "unblock" => Act::Unblock,
        "stop_next" => Act::StopNext,
        "stop_serve" => Act::StopServe,
        "target_all" => Act::TargetAll,
        "census" => Act::Submit(None),
        "open_kind" => Act::OpenKind,
        "pending" => Act::Pending,
        "forget" => Act::Forget,
        "open" => Act::Open,
        "operate" => Act::Operate,
        "close" => Act::Close(None),
        "advance" => Act::Advance,
        "called_operation" => Act::CalledOperation,
        "called_place" => Act::CalledPlace,
        "awaited" => Act::Awaited,
        _ => return None,
    };
    Some(act)
}

// An act with one number.
fn numbered_act(word: &str, number: u32) -> Option<Act> {
    let wide = number as u64;
    let act = match word {
        "call" => Act::Call(number),
        "target" => Act::Target(wide),
        "reclaim" => Act::Reclaim(wide),
        "install" => Act::Install(number),
        "invalidate" => Act::Invalidate(wide),
        "live_after" => Act::LiveAfter(wide),
        "tell" => Act::Tell(wide),
        "hold" => Act::Hold(number as usize),
        "serve" => Act::Serve(number as usize),
        "release" => Act::Release(number as usize),
        "counted" => Act::Counted(wide),
        "close_of" => Act::Close(Some(wide)),
        "weigh" => Act::Weigh(wide),
        _ => return None,
    };
    Some(act)
}

// An act with one argument.
fn act_with(word: &str, first: &str) -> Option<Act> {
    match (word, first) {
        ("submit", "depth") => Some(Act::Submit(Some(Ask::Depth))),
        ("submit", "top") => Some(Act::Submit(Some(Ask::Top))),
        _ => numbered_act(word, first.parse().ok()?),
    }
}

// An act with two arguments.
fn act_with_both(word: &str, first: &str, number: u64) -> Option<Act> {
    match (word, first) {
        ("submit", "count_of") => Some(Act::Submit(Some(Ask::CountOf(number)))),
        ("reply", operation) => Some(Act::Reply(operation.parse().ok()?, number)),
        _ => None,
    }
}

/// The act of these words, such as `reply 1 2` or `submit count_of 3`; None if there is no such act.
pub fn act_of(words: &str) -> Option<Act> {
    let Some((word, rest)) = words.split_once(' ') else {
        return plain_act(words);
    };
    match rest.split_once(' ') {
        None => act_with(word, rest),
        Some((first, second)) => act_with_both(word, first, second.parse().ok()?),
    }
}
