// The names of states, refusals and kinds.
ghost use Rattle.std.specs.Prelude.{◌≡◌, ◌++◌, ◌∷◌, ◌+◌, ◌≤◌, [], codes, decimal, length, vec_len, vec_capacity};
ghost use Rattle.thread_state.specs.StateText.{back_text, with_back, state_text};
ghost use Rattle.replay.specs.Printed.{refusal_text, kind_text, code_state_text};

use super::numbers::{put_counted, put_text};
use method_table::CodeState;
use operations::Kind;
use system::answers::Refusal;
use thread_state::{Back, State};

fn back_name(back: Back) -> &'static [u8]
    ensures text { result.now ≡ back_text back }
    ensures short { length result.now ≤ 4 }
{
    match back {
        Back::Java => b"Java",
        Back::Vm => b"Vm",
    }
}

fn put_state(text: &mut Vec<u8>, state: State)
    requires room { vec_len text.old + 24 ≤ vec_capacity text.old }
    ensures text { text.new.items ≡ text.old.items ++ state_text state }
    ensures grows { vec_len text.new ≤ vec_len text.old + 24 }
    ensures kept { vec_capacity text.old ≤ vec_capacity text.new }
{
    match state {
        State::Vacant => put_text(text, b"Vacant"),
        State::New => put_text(text, b"New"),
        State::InJava => put_text(text, b"InJava"),
        State::InVm => put_text(text, b"InVm"),
        State::InNative(back) => put_with_back(text, b"InNative", back),
        State::Blocked => put_text(text, b"Blocked"),
        State::NewTrans => put_text(text, b"NewTrans"),
        State::NativeTrans(back) => put_with_back(text, b"NativeTrans", back),
        State::BlockedTrans => put_text(text, b"BlockedTrans"),
        State::AtPoll(back) => put_with_back(text, b"AtPoll", back),
        State::Serving(back) => put_with_back(text, b"Serving", back),
    }
}

/// Puts a name, and the way back in round brackets.
fn put_with_back(text: &mut Vec<u8>, name: &[u8], back: Back)
    requires room { vec_len text.old + (length name.now + 6) ≤ vec_capacity text.old }
    ensures text { text.new.items ≡ text.old.items ++ with_back name.now back }
    ensures grows { vec_len text.new ≤ vec_len text.old + (length name.now + 6) }
    ensures kept { vec_capacity text.old ≤ vec_capacity text.new }
{
    put_text(text, name);
    put_text(text, b"(");
    put_text(text, back_name(back));
    put_text(text, b")");
}

pub(crate) fn put_refusal(text: &mut Vec<u8>, refusal: Refusal)
    requires room { vec_len text.old + 32 ≤ vec_capacity text.old }
    ensures text { text.new.items ≡ text.old.items ++ refusal_text refusal }
    ensures grows { vec_len text.new ≤ vec_len text.old + 32 }
    ensures kept { vec_capacity text.old ≤ vec_capacity text.new }
{
    match refusal {
        Refusal::Illegal(state) => {
            put_text(text, b"Illegal ");
            put_state(text, state)
        }
        Refusal::NoSuchPlace => put_text(text, b"NoSuchPlace"),
        Refusal::Publishing => put_text(text, b"Publishing"),
        Refusal::NotBegun => put_text(text, b"NotBegun"),
        Refusal::ChangesLeft => put_text(text, b"ChangesLeft"),
        Refusal::Held => put_text(text, b"Held"),
        Refusal::NoSuchMethod => put_text(text, b"NoSuchMethod"),
        Refusal::Unknown => put_text(text, b"Unknown"),
        Refusal::Unpublished => put_text(text, b"Unpublished"),
        Refusal::DepthFull => put_text(text, b"DepthFull"),
        Refusal::NotOf => put_text(text, b"NotOf"),
        Refusal::EmptyStack => put_text(text, b"EmptyStack"),
        Refusal::StackNotEmpty => put_text(text, b"StackNotEmpty"),
        Refusal::OperationPending => put_text(text, b"OperationPending"),
        Refusal::NotDone => put_text(text, b"NotDone"),
        Refusal::NothingOpen => put_text(text, b"NothingOpen"),
        Refusal::NotTold => put_text(text, b"NotTold"),
        Refusal::AlreadyDone => put_text(text, b"AlreadyDone"),
        Refusal::NotSafe => put_text(text, b"NotSafe"),
        Refusal::NotHeld => put_text(text, b"NotHeld"),
        Refusal::SafepointOpen => put_text(text, b"SafepointOpen"),
        Refusal::PlacesFull => put_text(text, b"PlacesFull"),
        Refusal::Spent => put_text(text, b"Spent"),
        Refusal::TableFull => put_text(text, b"TableFull"),
        Refusal::SerialsSpent => put_text(text, b"SerialsSpent"),
        Refusal::NotInUse => put_text(text, b"NotInUse"),
        Refusal::NotNotEntrant => put_text(text, b"NotNotEntrant"),
        Refusal::NotZombie => put_text(text, b"NotZombie"),
        Refusal::QueueFull => put_text(text, b"QueueFull"),
        Refusal::NoTargets => put_text(text, b"NoTargets"),
        Refusal::BadTargets => put_text(text, b"BadTargets"),
        Refusal::AlreadyOpen => put_text(text, b"AlreadyOpen"),
        Refusal::QueueEmpty => put_text(text, b"QueueEmpty"),
        Refusal::AlreadyTold => put_text(text, b"AlreadyTold"),
        Refusal::NotAllHeld => put_text(text, b"NotAllHeld"),
    }
}

#[inline(always)]
pub(crate) fn put_opened(text: &mut Vec<u8>, operation: u64, kind: Kind)
    requires room { vec_len text.old + 56 ≤ vec_capacity text.old }
    ensures text { text.new.items ≡ text.old.items
        ++ ((codes "open " ++ decimal operation ++ kind_text kind) ++ 10 ∷ []) }
    ensures grows { vec_len text.new ≤ vec_len text.old + 56 }
    ensures kept { vec_capacity text.old ≤ vec_capacity text.new }
{
    put_counted(text, b"open ", operation);
    match kind {
        Kind::Handshake => put_text(text, b" handshake\n"),
        Kind::Census => put_text(text, b" census\n"),
    }
}

// The line of a code's state.
fn code_state_line(state: CodeState) -> &'static [u8]
    ensures text { result.now ≡ code_state_text state ++ 10 ∷ [] }
    ensures short { length result.now ≤ 12 }
{
    match state {
        CodeState::InUse => b"in use\n",
        CodeState::NotEntrant => b"not entrant\n",
        CodeState::Zombie => b"zombie\n",
        CodeState::Freed => b"freed\n",
    }
}

#[inline(always)]
pub(crate) fn put_code_state(text: &mut Vec<u8>, state: CodeState)
    requires room { vec_len text.old + 12 ≤ vec_capacity text.old }
    ensures text { text.new.items ≡ text.old.items
        ++ (code_state_text state ++ 10 ∷ []) }
    ensures grows { vec_len text.new ≤ vec_len text.old + 12 }
    ensures kept { vec_capacity text.old ≤ vec_capacity text.new }
{
    put_text(text, code_state_line(state))
}
