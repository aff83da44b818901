// Steps on the desk's lists.
ghost use Rattle.std.specs.Prelude.{◌≡◌, ◌&&◌, ◌==◌, ◌<◌, ◌≤◌, ℕ, length, true, false, map, Some, None, IfOk, vec_capacity, vec_len, IfSome, IfNone, OnSome, slice_get, slice_set};
ghost use Rattle.std.specs.List.{list_all};
ghost use Rattle.operations.specs.Names.{among, is_distinct};
ghost use Rattle.operations.specs.Requests.{is_census, are_targets};
ghost use Rattle.desk.specs.declared.entries.Opened.{Opened as OpenedOf};
ghost use Rattle.desk.specs.declared.entries.Live.{Live as LiveOf};
ghost use Rattle.desk.specs.Machine.{Current as CurrentOf, names_of, is_live, is_taken, without, has_census, awaits_census, may_open_more, may_close, finished, as_operated, is_due, is_least, steps_of, targets_of};
ghost use Rattle.desk.specs.Refusals.{has_body, are_all, chosen, oldest_of, holds_target};
ghost use Rattle.desk.specs.Pending.{first_waiting, least_open};
ghost use Rattle.desk.specs.Targets.{kind_among};
ghost use Rattle.desk.specs.JobsFit.{same_ask, asks_it, are_for, jobs_fit, request_of, without_first};
ghost use Rattle.desk.specs.Fields.{asked_of, current_of, names_left, IsIndex};

use crate::entries::{Carried, Live, Opened};
use bodies::{Body, Name};
use operations::job::HandshakeOp;
use operations::queue::Queue;
use operations::requests::TARGETS;
use operations::{Ask, Kind, Request};
use std::alloc::{AllocError, Global};
use std::collections::VecDeque;

/// How many handshakes may be open at once.
pub const OPEN: usize = 4;

/// Returns the index of a live name. The first guess is the distance of the name from the first live name, which is
/// right if no thread between them has exited. A binary search follows. It misses no name, since live names are in
/// ascending order.
#[inline(always)]
pub fn found_at(live: &[Live], name: u64) -> Option<usize>
    ensures { IfSome result (λ i.
        (l : LiveOf) × (slice_get live.now i ≡ Some l) × (l.name ≡ name)) }
{
    if live.is_empty() {
        return None;
    }
    let behind = name.saturating_sub(live[0].name);
    if behind < live.len() as u64 && live[behind as usize].name == name {
        return Some(behind as usize);
    }
    match live.binary_search_by_key(&name, |l| l.name) {
        Ok(index) if live[index].name == name => Some(index),
        _ => None,
    }
}

/// Returns whether a name is live.
#[inline(always)]
pub fn lives(live: &[Live], name: u64) -> bool
    ensures { result ≡ is_live name live.now }
{
    match found_at(live, name) {
        Some(_) => true,
        None => live.iter().any(|l| l.name == name),
    }
}

/// Returns whether a live thread has the place.
pub fn taken(live: &[Live], place: usize) -> bool
    ensures { result ≡ is_taken place live.now }
{
    live.iter().any(|l| l.place == place)
}

/// Returns whether there is memory for one more live name, given that there is memory for its image.
pub fn make_room(live: &mut Vec<Live>, has_image: bool) -> bool
    ensures items { live.new.items ≡ live.old.items }
    ensures room { result ≡ true → (has_image ≡ true) × (vec_len live.new < vec_capacity live.new) }
{
    has_image && live.reserve(1).is_ok()
}

/// Removes a name from the live list.
pub fn take_off_live(live: &mut Vec<Live>, name: u64)
    ensures items { live.new.items ≡ without name live.old.items }
    ensures capacity { vec_capacity live.new ≡ vec_capacity live.old }
{
    live.retain(|l| l.name != name);
}

/// Returns the least free place.
pub fn least_free(live: &[Live], places: usize) -> Option<usize>
    ensures some { IfSome result (λ p. (p < places) × (is_taken p live.now ≡ false)) }
    ensures least { IfSome result (λ p. (k : ℕ) → k < p → is_taken k live.now ≡ true) }
    ensures none { IfNone result ((k : ℕ) → k < places → is_taken k live.now ≡ true) }
{
    for place in 0..places {
        if !taken(live, place) {
            return Some(place);
        }
    }
    None
}

/// Returns whether the request is a census.
#[inline(always)]
pub fn is_census(request: &Request) -> bool
    ensures { result ≡ is_census request.now }
{
    match request {
        Request::Census => true,
        Request::Handshake { .. } => false,
    }
}

/// Returns how many entries the request can make between its Open and its Close.
pub fn steps_of(request: &Request) -> usize
    ensures { result ≡ steps_of request.now }
{
    match request {
        Request::Census => 1,
        Request::Handshake { targets, .. } => targets.as_slice().len(),
    }
}

/// Returns how many targets the request lists; a census lists none.
#[inline(always)]
pub fn count_of_targets(request: &Request) -> usize
    ensures { result ≡ length (targets_of request.now) }
{
    match request {
        Request::Census => 0,
        Request::Handshake { targets, .. } => targets.as_slice().len(),
    }
}

/// Returns whether a census is open.
pub fn has_census<J>(opened: &[Opened<J>]) -> bool
    ensures { result ≡ has_census (map current_of opened.now) }
{
    let mut rest = opened;
    while let Some((one, others)) = rest.split_first() {
        if is_census(&one.request) {
            return true;
        }
        rest = others;
    }
    false
}

/// Returns the kind of the open requests. A census is never open together with another request.
pub fn kind_among<J>(opened: &[Opened<J>]) -> Kind
    ensures { result ≡ kind_among (map current_of opened.now) }
{
    if has_census(opened) {
        Kind::Census
    } else {
        Kind::Handshake
    }
}

/// Whether the oldest waiting request is a census.
fn awaits_census<J>(queue: &Queue<Carried<J>>) -> bool
    ensures { result ≡ awaits_census (map asked_of queue.now) }
{
    match queue.front() {
        Some(first) => is_census(&first.request),
        None => false,
    }
}

// The number of the oldest waiting request; if none waits, the number that is given out next.
fn first_waiting<J>(queue: &Queue<Carried<J>>, next: u64) -> u64
    ensures { result ≡ first_waiting next (map asked_of queue.now) }
{
    match queue.front() {
        Some(first) => first.number,
        None => next,
    }
}

// The least of `least` and the numbers of the open requests.
fn least_open<J>(opened: &[Opened<J>], least: u64) -> u64
    ensures { result ≡ least_open least (map current_of opened.now) }
{
    let mut least = least;
    let mut rest = opened;
    while let Some((one, others)) = rest.split_first() {
        least = least.min(one.number);
        rest = others;
    }
    least
}

/// Returns the least number of a request that is open or waits; if there is none, the number that is given out next.
pub fn least_pending<J>(queue: &Queue<Carried<J>>, opened: &[Opened<J>], next: u64) -> u64
    ensures { result
        ≡ least_open (first_waiting next (map asked_of queue.now)) (map current_of opened.now) }
{
    least_open(opened, first_waiting(queue, next))
}

/// Returns whether one more request may be opened. At most four handshakes are open, or one census alone.
pub fn may_open_more<J>(queue: &Queue<Carried<J>>, opened: &[Opened<J>]) -> bool
    ensures { result ≡ may_open_more (map asked_of queue.now) (map current_of opened.now) }
{
    opened.len() < OPEN && !has_census(opened) && !(awaits_census(queue) && !opened.is_empty())
}

/// Returns the index of the open request with this number.
#[inline(always)]
pub fn index_of<J>(opened: &[Opened<J>], number: u64) -> Option<usize>
    ensures { IsIndex number opened.now result }
{
    for place in 0..opened.len() {
        if opened[place].number == number {
            return Some(place);
        }
    }
    None
}

/// Returns whether an open request may be closed.
pub fn may_close<J>(request: &Opened<J>, live: &[Live]) -> bool
    ensures { result ≡ may_close live.now (current_of request.now) }
{
    if is_census(&request.request) {
        request.operated
    } else {
        request.due.are_gone(live)
    }
}

/// Returns whether a target of an open request is live and has no Finish.
#[inline(always)]
pub fn may_finish<J>(request: &Opened<J>, live: &[Live], name: u64) -> bool
    ensures { result ≡ (is_due name (current_of request.now) && is_live name live.now) }
{
    request.due.has_next(name) && lives(live, name)
}

/// Returns whether the name is due for no open request with a lesser number.
#[inline(always)]
pub fn is_least<J>(opened: &[Opened<J>], number: u64, name: u64) -> bool
    ensures { result ≡ is_least number name (map current_of opened.now) }
{
    let mut rest = opened;
    while let Some((one, others)) = rest.split_first() {
        if one.number < number && one.due.has(name) {
            return false;
        }
        rest = others;
    }
    true
}

/// Returns the index of the open request with this number, or of the oldest one if no number is given.
pub fn place_chosen<J>(opened: &[Opened<J>], number: Option<u64>) -> Option<usize>
    ensures some { IfSome result (λ i.
        (i < length opened.now)
        × ((o : OpenedOf J)
        → slice_get opened.now i ≡ Some o
        → IsIndex o.number opened.now (Some i)
        × (chosen number (map current_of opened.now) ≡ Some (current_of o)))) }
    ensures none { IfNone result (chosen number (map current_of opened.now) ≡ None) }
{
    match number {
        Some(number) => index_of(opened, number),
        None if opened.is_empty() => None,
        None => Some(0),
    }
}

/// Returns the number of the oldest open request.
#[inline(always)]
pub fn number_of_oldest<J>(opened: &[Opened<J>]) -> u64
    requires { 0 < length opened.now }
    ensures { (c : CurrentOf)
        × (oldest_of (map current_of opened.now) ≡ Some c)
        × (result ≡ c.number) }
{
    opened[0].number
}

/// Returns whether one of the bodies belongs to a target of the request.
pub fn holds_target<N: Name>(request: &Request, bodies: &[Body<N>]) -> bool
    ensures { result ≡ holds_target request.now bodies.now }
{
    bodies.iter().any(|b| request.is_target(b.name()))
}

#[inline(always)]
fn finish<J>(request: &mut Opened<J>, name: u64)
    requires left { 0 < request.old.left }
    requires due { is_distinct request.old.due.items ≡ true }
    ensures step { current_of request.new ≡ finished name (current_of request.old) }
    ensures jobs { request.new.jobs ≡ request.old.jobs }
{
    request.due.take_off(name);
    request.left -= 1;
}

fn operate<J>(request: &mut Opened<J>)
    requires { 0 < request.old.left }
    ensures step { current_of request.new ≡ as_operated (current_of request.old) }
    ensures jobs { request.new.jobs ≡ request.old.jobs }
{
    request.operated = true;
    request.left -= 1;
}

/// Changes the request's fields for a Finish of the name.
#[inline(always)]
pub fn finish_at<J>(opened: &mut Vec<Opened<J>>, place: usize, name: u64)
    requires { (place < length opened.old.items)
        × ((o : OpenedOf J) → slice_get opened.old.items place ≡ Some o → (0 < o.left)
        × (is_distinct o.due.items ≡ true)) }
    ensures step { (o : OpenedOf J) → slice_get opened.old.items place ≡ Some o
        → (after : OpenedOf J)
        × (current_of after ≡ finished name (current_of o))
        × (opened.new.items ≡ slice_set opened.old.items place after)
        × (after.jobs ≡ o.jobs) }
    ensures capacity { (vec_capacity opened.new ≡ vec_capacity opened.old)
        × (length opened.new.items ≡ length opened.old.items) }
{
    finish(&mut opened[place], name);
}

/// Marks the census as operated.
pub fn operate_at<J>(opened: &mut Vec<Opened<J>>, place: usize)
    requires { (place < length opened.old.items)
        × ((o : OpenedOf J) → slice_get opened.old.items place ≡ Some o → 0 < o.left) }
    ensures step { (o : OpenedOf J) → slice_get opened.old.items place ≡ Some o
        → (after : OpenedOf J)
        × (current_of after ≡ as_operated (current_of o))
        × (opened.new.items ≡ slice_set opened.old.items place after)
        × (after.jobs ≡ o.jobs) }
    ensures capacity { (vec_capacity opened.new ≡ vec_capacity opened.old)
        × (length opened.new.items ≡ length opened.old.items) }
{
    operate(&mut opened[place]);
}

// Whether one of the bodies has this name.
fn has_body<N: Name>(bodies: &[Body<N>], name: u64) -> bool
    ensures { result ≡ has_body name bodies.now }
{
    bodies.iter().any(|b| b.name() == name)
}

// Whether one of the bodies has this name. The search tries one index first.
#[tactic(auto, using(crate::proofs::Listed::body_at))]
fn has_body_at<N: Name>(bodies: &[Body<N>], index: usize, name: u64) -> bool
    ensures { result ≡ has_body name bodies.now }
{
    if index < bodies.len() && bodies[index].name() == name {
        return true;
    }
    has_body(bodies, name)
}

// Whether each live name has a body. Bodies that were taken in the order of the names are in the order of the live
// list.
fn all_have<N: Name>(live: &[Live], bodies: &[Body<N>]) -> bool
    ensures { result ≡ list_all (λ l. has_body l.name bodies.now) live.now }
{
    let mut rest = live;
    let mut index: usize = 0;
    while let Some((one, others)) = rest.split_first() {
        if !has_body_at(bodies, index, one.name) {
            return false;
        }
        rest = others;
        index = index.saturating_add(1);
    }
    true
}

/// Returns whether the bodies are exactly those of all live names.
pub fn are_all<N: Name>(live: &[Live], bodies: &[Body<N>]) -> bool
    ensures { result ≡ are_all live.now bodies.now }
{
    live.len() == bodies.len() && all_have(live, bodies)
}

/// Returns whether no request is open or waits.
pub fn is_idle<J>(opened: &[Opened<J>], queue: &Queue<Carried<J>>) -> bool
    ensures { result ≡ (length opened.now == 0 && length queue.now == 0) }
{
    opened.is_empty() && queue.len() == 0
}

/// Returns the live names. Refused only if memory is refused.
pub fn names_of(live: &[Live], alloc: Global) -> Result<Vec<u64>, AllocError>
    ensures { IfOk result (λ names. names.items ≡ names_of live.now) }
{
    let mut names = Vec::new(alloc);
    let mut rest = live;
    while let Some((one, others)) = rest.split_first() {
        names.reserve(1)?;
        names.push_reserved(one.name);
        rest = others;
    }
    Ok(names)
}

// Removes the first job for the name from the list, by a linear search.
#[inline(never)]
fn take_first<J: HandshakeOp>(jobs: &mut VecDeque<J>, name: u64) -> Option<J>
    ensures job { IfSome result (λ j. J.whom j ≡ name) }
    ensures some { OnSome result (among name (map J.whom jobs.old.items) ≡ true) }
    ensures none { IfNone result (among name (map J.whom jobs.old.items) ≡ false) }
    ensures left { map J.whom jobs.new.items ≡ without_first name (map J.whom jobs.old.items) }
{
    for place in 0..jobs.len() {
        if jobs[place].target_of() == name {
            match jobs.remove(place) {
                Some(job) => return Some(job),
                None => unreachable!(),
            }
        }
    }
    None
}

// Removes the first job for the name. Tries the front before it searches the list: jobs are mostly taken in order, and
// removing the front moves no other job.
#[inline(always)]
fn take_of<J: HandshakeOp>(jobs: &mut VecDeque<J>, name: u64) -> Option<J>
    ensures job { IfSome result (λ j. J.whom j ≡ name) }
    ensures some { OnSome result (among name (map J.whom jobs.old.items) ≡ true) }
    ensures none { IfNone result (among name (map J.whom jobs.old.items) ≡ false) }
    ensures left { map J.whom jobs.new.items ≡ without_first name (map J.whom jobs.old.items) }
{
    if !jobs.is_empty() && jobs[0].target_of() == name {
        return jobs.pop_front();
    }
    take_first(jobs, name)
}

#[inline(always)]
fn job_in<J: HandshakeOp>(request: &mut Opened<J>, name: u64) -> Option<J>
    ensures job { IfSome result (λ j. (J.whom j ≡ name) × (J.number j ≡ request.old.number)) }
    ensures some { OnSome result (among name (names_left J.whom request.old) ≡ true) }
    ensures none { IfNone result (among name (names_left J.whom request.old) ≡ false) }
    ensures left { names_left J.whom request.new
        ≡ without_first name (names_left J.whom request.old) }
    ensures same { current_of request.new ≡ current_of request.old }
{
    match take_of(&mut request.jobs, name) {
        Some(job) => Some(job.numbered(request.number)),
        None => None,
    }
}

// Whether two asks are the same.
#[inline(always)]
fn same_ask(one: Ask, other: Ask) -> bool
    ensures { result ≡ same_ask one other }
{
    match one {
        Ask::Depth => matches!(other, Ask::Depth),
        Ask::Top => matches!(other, Ask::Top),
        Ask::CountOf(serial) => match other {
            Ask::CountOf(asked) => serial == asked,
            Ask::Depth | Ask::Top => false,
        },
    }
}

/// Returns whether the request is a handshake with this ask.
#[inline(always)]
pub fn asks_it(request: &Request, ask: Ask) -> bool
    ensures { result ≡ asks_it ask request.now }
{
    match request {
        Request::Census => false,
        Request::Handshake { ask: asked, .. } => same_ask(*asked, ask),
    }
}

// Whether there is one job for each target, in order, each with this ask.
fn are_for<J: HandshakeOp>(targets: &[u64], ask: Ask, jobs: &[J]) -> bool
    ensures { result ≡ are_for J.whom J.asks targets.now ask jobs.now }
{
    let mut names = targets;
    let mut rest = jobs;
    while let Some((name, others)) = names.split_first() {
        let Some((job, later)) = rest.split_first() else {
            return false;
        };
        if !(job.target_of() == *name && same_ask(job.ask_of(), ask)) {
            return false;
        }
        names = others;
        rest = later;
    }
    rest.is_empty()
}

/// Returns whether each target of the request has one job with the request's ask, in the same order. A census has no
/// jobs.
pub fn jobs_fit<J: HandshakeOp>(request: &Request, jobs: &[J]) -> bool
    ensures { result ≡ jobs_fit J.whom J.asks request.now jobs.now }
{
    match request {
        Request::Census => jobs.is_empty(),
        Request::Handshake { targets, ask } => are_for(targets.as_slice(), *ask, jobs),
    }
}

// Whether one of the jobs is for this name.
fn has_job_for<J: HandshakeOp>(jobs: &[J], name: u64) -> bool
    ensures { result ≡ among name (map J.whom jobs.now) }
{
    let mut rest = jobs;
    while let Some((job, others)) = rest.split_first() {
        if job.target_of() == name {
            return true;
        }
        rest = others;
    }
    false
}

// Whether no two jobs are for the same name.
fn are_distinct<J: HandshakeOp>(jobs: &[J]) -> bool
    ensures { result ≡ is_distinct (map J.whom jobs.now) }
{
    let mut rest = jobs;
    while let Some((job, others)) = rest.split_first() {
        if has_job_for(others, job.target_of()) {
            return false;
        }
        rest = others;
    }
    true
}

// Whether all jobs have this ask. If so, there is one job with this ask for each of the jobs' own targets, in order.
fn all_ask<J: HandshakeOp>(jobs: &[J], ask: Ask) -> bool
    ensures { result ≡ are_for J.whom J.asks (map J.whom jobs.now) ask jobs.now }
{
    let mut rest = jobs;
    while let Some((job, others)) = rest.split_first() {
        if !same_ask(job.ask_of(), ask) {
            return false;
        }
        rest = others;
    }
    true
}

/// Returns whether the handshake of the jobs' targets, with the ask of the first job, has good targets, and the jobs
/// fit it. Tests the number of jobs first, so that at most 64 jobs are compared with one another.
pub fn fit_their_request<J: HandshakeOp>(jobs: &[J]) -> bool
    ensures fits { IfSome (request_of J.whom J.asks jobs.now) (λ asked.
        result ≡ (are_targets asked && jobs_fit J.whom J.asks asked jobs.now)) }
    ensures bound { result ≡ true → length jobs.now ≤ 64 }
{
    match jobs.split_first() {
        Some((first, _)) => {
            jobs.len() <= TARGETS && are_distinct(jobs) && all_ask(jobs, first.ask_of())
        }
        None => false,
    }
}

/// Takes the job for the name out of an open request; the job has the request's number.
#[inline(always)]
pub fn job_of<J: HandshakeOp>(opened: &mut Vec<Opened<J>>, place: usize, name: u64) -> Option<J>
    requires { place < length opened.old.items }

    ensures job { IfSome result (λ j.
        (J.whom j ≡ name)
        × ((o : OpenedOf J)
        → slice_get opened.old.items place ≡ Some o
        → J.number j ≡ o.number)) }
    ensures some { OnSome result
        ((o : OpenedOf J)
        → slice_get opened.old.items place ≡ Some o
        → among name (names_left J.whom o) ≡ true) }
    ensures none { IfNone result
        ((o : OpenedOf J)
        → slice_get opened.old.items place ≡ Some o
        → among name (names_left J.whom o) ≡ false) }
    ensures step { (o : OpenedOf J) → slice_get opened.old.items place ≡ Some o
        → (after : OpenedOf J)
        × (current_of after ≡ current_of o)
        × (opened.new.items ≡ slice_set opened.old.items place after)
        × (names_left J.whom after ≡ without_first name (names_left J.whom o)) }
    ensures room { (length opened.new.items ≡ length opened.old.items)
        × (vec_capacity opened.new ≡ vec_capacity opened.old) }
{
    job_in(&mut opened[place], name)
}
