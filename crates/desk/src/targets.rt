// The meaning of the open requests for a thread.
ghost use Rattle.std.specs.Prelude.{◌≡◌, ◌&&◌, ◌<◌, ◌++◌, ◌∷◌, [], ◌-◌, false, nat_lt, map, take, vec_capacity, vec_len, IfSome};
ghost use Rattle.std.specs.Option.{option_to_list};
ghost use Rattle.operations.specs.Names.{among};
ghost use Rattle.std.specs.List.{list_any};
ghost use Rattle.operations.specs.Requests.{is_census};
ghost use Rattle.desk.specs.Machine.{names_of, place_of};
ghost use Rattle.desk.specs.Rising.{AreRising};
ghost use Rattle.desk.specs.Targets.{is_asked, is_owed, is_target_of, standing_to, is_untold, is_told, is_undone, untold_in, progress_in, is_due_target, is_due_name, due_of, of_which, oldest, only_handshake, name_at, live_after};
ghost use Rattle.desk.specs.Fields.{current_of};

use crate::entries::{Live, Opened, Progress, Standing, Target};
use crate::lists::{found_at, is_census, kind_among};
use crate::names::is_among;
use operations::Request;

/// Returns the place of the live name.
pub fn place_of(live: &[Live], name: u64) -> Option<usize>
    requires rising { AreRising 0 (names_of live.now) }
    ensures { result ≡ place_of name live.now }
{
    if let Some(index) = found_at(live, name) {
        return Some(live[index].place);
    }
    let mut rest = live;
    while let Some((one, others)) = rest.split_first() {
        if one.name == name {
            return Some(one.place);
        }
        rest = others;
    }
    None
}

// The live names after this one, or all if it isn't live.
#[inline(always)]
fn behind(live: &[Live], name: u64) -> &[Live]
    requires rising { AreRising 0 (names_of live.now) }
    ensures { live_after name result.now ≡ live_after name live.now }
{
    match found_at(live, name) {
        Some(index) => &live[index + 1..],
        None => live,
    }
}

/// Returns the live name at the place.
pub fn name_at(live: &[Live], place: usize) -> Option<u64>
    ensures { result ≡ name_at place live.now }
{
    let mut rest = live;
    while let Some((one, others)) = rest.split_first() {
        if one.place == place {
            return Some(one.name);
        }
        rest = others;
    }
    None
}

/// Returns the least live name above this one.
pub fn live_after(live: &[Live], name: u64) -> Option<u64>
    requires rising { AreRising 0 (names_of live.now) }
    ensures { result ≡ live_after name live.now }
{
    let mut rest = behind(live, name);
    while let Some((one, others)) = rest.split_first() {
        if name < one.name {
            return Some(one.name);
        }
        rest = others;
    }
    None
}

// Whether the request is for the name.
fn is_asked(request: &Request, next: u64, name: u64) -> bool
    ensures { result ≡ is_asked next name request.now }
{
    match request {
        Request::Census => 0 < name && name < next,
        Request::Handshake { targets, .. } => is_among(targets.as_slice(), name),
    }
}

// Whether a Finish of the name, or the Operate, is missing.
#[inline(always)]
fn is_owed<J>(request: &Opened<J>, name: u64) -> bool
    ensures { result ≡ is_owed name (current_of request.now) }
{
    if is_census(&request.request) {
        !request.operated
    } else {
        request.due.has(name)
    }
}

// Whether the request is for the name, and the name was given out before the Open. If its thread is live, it was live
// then.
fn is_target_of<J>(request: &Opened<J>, next: u64, name: u64) -> bool
    ensures { result ≡ is_target_of next name (current_of request.now) }
{
    is_asked(&request.request, next, name) && name < request.before
}

fn is_one_asked<J>(opened: &[Opened<J>], next: u64, name: u64) -> bool
    ensures { result ≡ list_any (λ c. is_asked next name c.request) (map current_of opened.now) }
{
    let mut rest = opened;
    while let Some((one, others)) = rest.split_first() {
        if is_asked(&one.request, next, name) {
            return true;
        }
        rest = others;
    }
    false
}

fn is_target_of_one<J>(opened: &[Opened<J>], next: u64, name: u64) -> bool
    ensures { result ≡ list_any (is_target_of next name) (map current_of opened.now) }
{
    let mut rest = opened;
    while let Some((one, others)) = rest.split_first() {
        if is_target_of(one, next, name) {
            return true;
        }
        rest = others;
    }
    false
}

/// Returns the meaning of the open requests for the thread of the name.
pub fn standing_to<J>(opened: &[Opened<J>], next: u64, live: &[Live], name: u64) -> Standing
    requires rising { AreRising 0 (names_of live.now) }
    ensures { result ≡ standing_to next live.now name (map current_of opened.now) }
{
    if opened.is_empty() {
        return Standing::NothingOpen;
    }
    if !is_one_asked(opened, next, name) {
        return Standing::NotOf;
    }
    let Some(place) = place_of(live, name) else {
        return Standing::Gone;
    };
    if !is_target_of_one(opened, next, name) {
        return Standing::Gone;
    }
    Standing::Asked(Target {
        place,
        kind: kind_among(opened),
    })
}

// Whether the request is for the live thread, with a number greater than `last`, with which its poll word was last
// armed.
fn is_untold<J>(request: &Opened<J>, next: u64, name: u64, last: u64) -> bool
    ensures { result ≡ is_untold next name last (current_of request.now) }
{
    is_target_of(request, next, name) && last < request.number
}

/// Returns the number of the oldest request for a live thread that is greater than `last`, with which its poll word was
/// last armed.
pub fn untold_in<J>(opened: &[Opened<J>], next: u64, name: u64, last: u64) -> Option<u64>
    ensures value { result ≡ untold_in next name last (map current_of opened.now) }
    ensures later { IfSome result (λ number. last < number) }
{
    let mut rest = opened;
    while let Some((one, others)) = rest.split_first() {
        if is_untold(one, next, name, last) {
            return Some(one.number);
        }
        rest = others;
    }
    None
}

// Whether the request is for the live thread and its poll word was armed for it.
fn is_told<J>(request: &Opened<J>, next: u64, name: u64, last: u64) -> bool
    ensures { result ≡ is_told next name last (current_of request.now) }
{
    is_target_of(request, next, name) && request.number <= last
}

fn is_one_told<J>(opened: &[Opened<J>], next: u64, name: u64, last: u64) -> bool
    ensures { result ≡ list_any (is_told next name last) (map current_of opened.now) }
{
    let mut rest = opened;
    while let Some((one, others)) = rest.split_first() {
        if is_told(one, next, name, last) {
            return true;
        }
        rest = others;
    }
    false
}

fn is_undone<J>(request: &Opened<J>, next: u64, name: u64, last: u64) -> bool
    ensures { result ≡ is_undone next name last (current_of request.now) }
{
    is_told(request, next, name, last) && is_owed(request, name)
}

/// Returns the progress of a live thread with the open requests up to `last`, with which its poll word was last armed.
pub fn progress_in<J>(opened: &[Opened<J>], next: u64, name: u64, last: u64) -> Progress
    ensures { result ≡ progress_in next name last (map current_of opened.now) }
{
    let mut rest = opened;
    while let Some((one, others)) = rest.split_first() {
        if is_undone(one, next, name, last) {
            return Progress::Undone(one.number);
        }
        rest = others;
    }
    if is_one_told(opened, next, name, last) {
        Progress::Done
    } else {
        Progress::NotTold
    }
}

// Whether the thread was live at the Open and is due: its Finish, or the Operate, is missing.
#[inline(always)]
fn is_due_target<J>(thread: Live, request: &Opened<J>) -> bool
    ensures { result ≡ is_due_target thread (current_of request.now) }
{
    thread.name < request.before && is_owed(request, thread.name)
}

#[inline(always)]
fn is_due<J>(thread: Live, opened: &[Opened<J>]) -> bool
    ensures { result ≡ list_any (is_due_target thread) (map current_of opened.now) }
{
    let mut rest = opened;
    while let Some((one, others)) = rest.split_first() {
        if is_due_target(thread, one) {
            return true;
        }
        rest = others;
    }
    false
}

/// Returns whether the thread of the name is live and due for one of the requests.
pub fn is_due_name<J>(opened: &[Opened<J>], live: &[Live], name: u64) -> bool
    requires rising { AreRising 0 (names_of live.now) }
    ensures { result ≡ is_due_name name (map current_of opened.now) live.now }
{
    if let Some(index) = found_at(live, name) {
        return is_due(live[index], opened);
    }
    let mut rest = live;
    while let Some((one, others)) = rest.split_first() {
        if one.name == name && is_due(*one, opened) {
            return true;
        }
        rest = others;
    }
    false
}

// Whether the thread was live at an Open and is among the due names. `before` is the next name at that Open.
#[inline(always)]
fn is_due_among(thread: Live, before: u64, first: Option<u64>, names: &[u64]) -> bool
    ensures { result ≡ (nat_lt thread.name before
        && among thread.name (option_to_list first ++ names.now)) }
{
    thread.name < before
        && match first {
            Some(first) if first == thread.name => true,
            _ => is_among(names, thread.name),
        }
}

// Appends to the list the live threads that are due for a handshake. Reads the request's fields once, before the loop:
// after a write into the list the compiler would read them from memory again.
#[inline(always)]
fn list_due_of<J>(request: &Opened<J>, live: &[Live], list: &mut Vec<Live>)
    requires handshake { is_census request.now.request ≡ false }
    ensures items { list.new.items
        ≡ list.old.items ++ take (vec_capacity list.old - vec_len list.old)
        (due_of (current_of request.now ∷ []) live.now) }
    ensures capacity { vec_capacity list.new ≡ vec_capacity list.old }
{
    let before = request.before;
    let (first, names) = request.due.parts();
    let mut rest = live;
    while let Some((one, others)) = rest.split_first() {
        if is_due_among(*one, before, first, names) {
            if list.len() >= list.capacity() {
                return;
            }
            list.push_reserved(*one);
        }
        rest = others;
    }
}

/// Appends to the list the live threads that are due for one of the requests, in the order of names, as far as the
/// list's capacity goes.
#[inline(always)]
pub fn list_due<J>(opened: &[Opened<J>], live: &[Live], list: &mut Vec<Live>)
    ensures items { list.new.items
        ≡ list.old.items ++ take (vec_capacity list.old - vec_len list.old)
        (due_of (map current_of opened.now) live.now) }
    ensures capacity { vec_capacity list.new ≡ vec_capacity list.old }
{
    if let [one] = opened {
        if !is_census(&one.request) {
            return list_due_of(one, live, list);
        }
    }
    let mut rest = live;
    while let Some((one, others)) = rest.split_first() {
        if is_due(*one, opened) {
            if list.len() >= list.capacity() {
                return;
            }
            list.push_reserved(*one);
        }
        rest = others;
    }
}

/// Only the oldest request.
pub fn oldest<J>(opened: &[Opened<J>]) -> &[Opened<J>]
    ensures { map current_of result.now ≡ oldest (map current_of opened.now) }
{
    if opened.is_empty() {
        opened
    } else {
        &opened[..1]
    }
}

/// Only the oldest request, or all of them.
#[inline(always)]
pub fn of_which<J>(opened: &[Opened<J>], of_oldest: bool) -> &[Opened<J>]
    ensures { map current_of result.now ≡ of_which of_oldest (map current_of opened.now) }
{
    if of_oldest { oldest(opened) } else { opened }
}

/// Returns the number of the only open request if it is a handshake, otherwise None.
#[inline(always)]
pub fn only_handshake<J>(opened: &[Opened<J>]) -> Option<u64>
    ensures { result ≡ only_handshake (map current_of opened.now) }
{
    match opened {
        [one] if !is_census(&one.request) => Some(one.number),
        _ => None,
    }
}
