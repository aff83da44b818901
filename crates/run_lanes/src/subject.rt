// The subject of a line.
use operations::Request;
use replay::grammar::Command;
use std::alloc::{AllocError, Global};
use system::events::{Act, Event};

/// What a line does to a code.
#[derive(Clone, Copy, Drop)]
pub enum Touch {
    Invalidate,
    /// A Look at this place.
    Look(usize),
    Weigh,
    Free,
    /// The line only reads the code's state or count.
    Read,
}

/// The subject of a line.
#[derive(Drop)]
pub enum Subject {
    /// No thread, operation or code.
    Whole,
    /// The numbers of places, slots and methods.
    Size(u64, u64, u64),
    Place(usize, Act),
    Start,
    /// By method.
    Install(u64),
    /// By serial.
    Code(u64, Touch),
    /// By method.
    Resolve(u64),
    Ask(Request),
    Open,
    /// By the thread's name.
    Tell(u64),
    Operate,
    /// By number, or None for the oldest.
    Close(Option<u64>),
}

impl Subject {
    /// The subject of a command. The names of a request take memory.
    pub fn of(alloc: Global, command: &Option<Command>) -> Result<Subject, AllocError> {
        match command {
            None => Ok(Subject::Whole),
            Some(Command::Size(x, y, z)) => Ok(Subject::Size(*x, *y, *z)),
            Some(Command::Do(event)) => Subject::of_event(alloc, event),
        }
    }

    fn of_event(alloc: Global, event: &Event) -> Result<Subject, AllocError> {
        Ok(match event {
            Event::At(place, act) => Subject::Place(*place, *act),
            Event::Start => Subject::Start,
            Event::Install(method) => Subject::Install(*method),
            Event::Invalidate(serial) => Subject::Code(*serial, Touch::Invalidate),
            Event::Round => Subject::Whole,
            Event::Look(serial, place) => Subject::Code(*serial, Touch::Look(*place)),
            Event::Weigh(serial) => Subject::Code(*serial, Touch::Weigh),
            Event::Free(serial) => Subject::Code(*serial, Touch::Free),
            Event::Ask(request) => Subject::Ask(request.copied(alloc)?),
            Event::Open => Subject::Open,
            Event::Tell(name) => Subject::Tell(*name),
            Event::Operate => Subject::Operate,
            Event::Close(number) => Subject::Close(*number),
            Event::Count(serial) | Event::CodeState(serial) => {
                Subject::Code(*serial, Touch::Read)
            }
            Event::Resolve(method) => Subject::Resolve(*method),
        })
    }
}
