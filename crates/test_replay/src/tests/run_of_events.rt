// Runs through `System::run`, which gets all events at once: with ample memory, and with each growth refused in turn. A refused run stops
// before the event that lacks memory, and can be continued.
use super::{Run, TEXTS, run_named, run_of, steps_of};
use replay::engine::Reply;
use replay::grammar::{Command, parse};
use replay::print::put_reply;
use std::alloc::{AllocError, Global};
use std::process::Abort;
use std::test::Fail;
use system::answers::Answer;
use system::events::Event;
use system::{Stopped, System};

// The sizes of the first step of a run.
fn sizes_of(rt: &impl Abort, alloc: Global, steps: &str) -> (u64, u64, u64) {
    let (size, _) = steps.split_once(" => ").expect(rt, "a size");
    match parse(alloc, size.as_bytes()) {
        Ok(Some(Command::Size(places, slots, methods))) => (places, slots, methods),
        _ => panic!(rt; "{size} is no size"),
    }
}

// The other steps of a run, as events.
fn events_of(rt: &impl Abort, alloc: Global, steps: &str) -> Result<Vec<Event>, AllocError> {
    let mut events = Vec::new(alloc);
    for step in steps.lines().skip(1) {
        let (line, _) = step.split_once(" => ").expect(rt, "an answer");
        match parse(alloc, line.as_bytes())? {
            Some(Command::Do(event)) => events.push(event)?,
            _ => panic!(rt; "{line} is no event"),
        }
    }
    Ok(events)
}

// Room for all answers of a run.
const ROOM: usize = 4096;

// A system, and the text of its answers.
#[derive(Drop)]
struct Asked {
    system: System,
    text: Vec<u8>,
}

impl Asked {
    fn new(alloc: Global, places: u64, slots: u64, methods: u64) -> Option<Asked> {
        let system = System::new(alloc, places as usize, slots as usize, methods as usize).ok()?;
        let text = Vec::with_capacity(alloc, ROOM).ok()?;
        Some(Asked { system, text })
    }

    fn add_answers(&mut self, rt: &impl Abort, answers: Vec<Answer>) {
        for answer in answers {
            put_reply(&mut self.text, &Reply::Answered(answer)).expect(rt, "room for an answer");
        }
    }

    // Does the events, and returns where memory was refused.
    fn stopped_at(&mut self, rt: &impl Abort, alloc: Global, events: &[Event]) -> Option<usize> {
        match self.system.run(alloc, events) {
            Ok(answers) => {
                self.add_answers(rt, answers);
                None
            }
            Err(Stopped { answers, at }) => {
                assert!(rt; answers.len() == at && at < events.len());
                self.add_answers(rt, answers);
                Some(at)
            }
        }
    }

    // Does all events. If memory was refused at an event, it does that event and those after it then.
    fn resume(&mut self, rt: &impl Abort, alloc: Global, events: &[Event]) -> Option<usize> {
        let stopped = self.stopped_at(rt, alloc, events);
        if let Some(at) = stopped {
            let rest = events.get(at..).expect(rt, "events");
            assert!(rt; self.stopped_at(rt, alloc, rest).is_none());
        }
        stopped
    }
}

// Whether a text has the answers of a run's events, and no more.
fn has_answers(text: &[u8], steps: &str) -> bool {
    let mut rest = text;
    for step in steps.lines().skip(1) {
        let Some((_, answer)) = step.split_once(" => ") else {
            return false;
        };
        let Some(behind) = rest.strip_prefix(answer.as_bytes()) else {
            return false;
        };
        let Some((b'\n', behind)) = behind.split_first() else {
            return false;
        };
        rest = behind;
    }
    rest.is_empty()
}

// Where a run stopped because memory was refused, if it was begun. The answers are the same.
fn resumed_at(rt: &impl Abort, alloc: Global, run: Run) -> Option<Option<usize>> {
    let steps = steps_of(alloc, run.rows).ok()?;
    let (places, slots, methods) = sizes_of(rt, alloc, &steps);
    let events = events_of(rt, alloc, &steps).ok()?;
    let mut asked = Asked::new(alloc, places, slots, methods)?;
    let stopped = asked.resume(rt, alloc, &events);
    assert!(rt; has_answers(&asked.text, &steps), "{}", run.name);
    Some(stopped)
}

#[test]
fn events_are_answered_at_once(rt: HostRuntime) -> Result<(), Fail> {
    for texts in TEXTS {
        for text in texts.split("\n\n") {
            let run = run_of(text);
            let found = resumed_at(&rt, rt.alloc(), run);
            assert!(rt; matches!(found, Some(None)), "{}", run.name);
        }
    }
    Ok(())
}

#[test]
fn refused_memory_stops_a_run_before_its_event(rt: HostRuntime) -> Result<(), Fail> {
    let run = run_named(&rt, "safepoint_of_two_threads");
    match resumed_at(&rt, rt.alloc(), run) {
        None => println!(rt; "refused before the run")?,
        Some(None) => println!(rt; "no growth was refused")?,
        Some(Some(at)) => println!(rt; "refused at event {at}")?,
    }
    Ok(())
}
