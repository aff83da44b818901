// The outcomes of lines, and the shapes of their marks: one for each kind of answer.
ghost use Rattle.std.specs.Prelude.{◌≡◌};
ghost use Rattle.run_picture.specs.Drawn.{outcome_text, shape_text};
ghost use Rattle.run_picture.specs.Marks.{deed_of, deed_of_event, deed_of_act, outcome_of, shape_of, shape_of_answer, done_shape, go_shape};

use replay::engine::Reply;
use replay::grammar::Command;
use system::answers::Answer;
use system::events::{Act, Event};

/// The outcome of a line.
#[derive(Clone, Copy, PartialEq, Eq, Drop)]
pub enum Outcome {
    /// It is not a valid line.
    Bad,
    Refused,
    Accepted,
}

impl Outcome {
    /// The class of this outcome in the style sheet.
    pub fn class(self) -> &'static str
        ensures { result.now ≡ outcome_text self }
    {
        match self {
            Outcome::Bad => "bad",
            Outcome::Refused => "refused",
            Outcome::Accepted => "accepted",
        }
    }
}

/// The shape of a mark, which is the kind of the line's answer.
#[derive(Clone, Copy, Drop)]
pub enum Shape {
    BadLine,
    Refusal,
    Step,
    Cleared,
    Started,
    Exited,
    Change,
    NoChange,
    Go,
    Left,
    Stop,
    Entered,
    WrongMethod,
    Callback,
    Stack,
    Code,
    NoCode,
    Covered,
    Late,
    NotLooked,
    Used,
    Retired,
    Asked,
    Opened,
    Closed,
    Told,
    Gone,
    Counted,
    Count,
    State,
}

impl Shape {
    /// The name of this shape: the class of its marks, and what the list of shapes calls it.
    pub fn name(self) -> &'static str
        ensures { result.now ≡ shape_text self }
    {
        match self {
            Shape::BadLine => "badline",
            Shape::Refusal => "refusal",
            Shape::Step => "step",
            Shape::Cleared => "cleared",
            Shape::Started => "started",
            Shape::Exited => "exited",
            Shape::Change => "change",
            Shape::NoChange => "nochange",
            Shape::Go => "go",
            Shape::Left => "left",
            Shape::Stop => "stop",
            Shape::Entered => "entered",
            Shape::WrongMethod => "wrongmethod",
            Shape::Callback => "callback",
            Shape::Stack => "stack",
            Shape::Code => "code",
            Shape::NoCode => "nocode",
            Shape::Covered => "covered",
            Shape::Late => "late",
            Shape::NotLooked => "notlooked",
            Shape::Used => "used",
            Shape::Retired => "retired",
            Shape::Asked => "asked",
            Shape::Opened => "opened",
            Shape::Closed => "closed",
            Shape::Told => "told",
            Shape::Gone => "gone",
            Shape::Counted => "counted",
            Shape::Count => "count",
            Shape::State => "state",
        }
    }
}

/// What a line asks for, as far as it decides the shape of the line's mark together with the answer.
#[derive(Clone, Copy, Drop)]
pub enum Deed {
    Clear,
    Leave,
    Other,
}

/// What the command of a line asks for.
pub fn deed_of(command: &Option<Command>) -> Deed
    ensures { result ≡ deed_of command.now }
{
    match command {
        None => Deed::Other,
        Some(Command::Size(_, _, _)) => Deed::Other,
        Some(Command::Do(event)) => deed_of_event(event),
    }
}

fn deed_of_event(event: &Event) -> Deed
    ensures { result ≡ deed_of_event event.now }
{
    match event {
        Event::At(_, act) => deed_of_act(*act),
        _ => Deed::Other,
    }
}

fn deed_of_act(act: Act) -> Deed
    ensures { result ≡ deed_of_act act }
{
    match act {
        Act::Clear => Deed::Clear,
        Act::Leave => Deed::Leave,
        _ => Deed::Other,
    }
}

/// The outcome of a line with this reply.
pub fn outcome_of(reply: &Reply) -> Outcome
    ensures { result ≡ outcome_of reply.now }
{
    match reply {
        Reply::BadLine => Outcome::Bad,
        Reply::BadSize => Outcome::Refused,
        Reply::Answered(Answer::Refused(_)) => Outcome::Refused,
        Reply::Answered(_) => Outcome::Accepted,
    }
}

/// The shape for a line that asks for this deed and has this reply.
pub fn shape_of(deed: Deed, reply: &Reply) -> Shape
    ensures { result ≡ shape_of deed reply.now }
{
    match reply {
        Reply::BadLine => Shape::BadLine,
        Reply::BadSize => Shape::Refusal,
        Reply::Answered(answer) => shape_of_answer(deed, answer),
    }
}

// The shape for the answer that the deed is done.
fn done_shape(deed: Deed) -> Shape
    ensures { result ≡ done_shape deed }
{
    match deed {
        Deed::Clear => Shape::Cleared,
        Deed::Leave | Deed::Other => Shape::Step,
    }
}

// The shape for the answer to go on.
fn go_shape(deed: Deed) -> Shape
    ensures { result ≡ go_shape deed }
{
    match deed {
        Deed::Leave => Shape::Left,
        Deed::Clear | Deed::Other => Shape::Go,
    }
}

fn shape_of_answer(deed: Deed, answer: &Answer) -> Shape
    ensures { result ≡ shape_of_answer deed answer.now }
{
    match answer {
        Answer::Done => done_shape(deed),
        Answer::Thread(_, _) => Shape::Started,
        Answer::Exited(_) => Shape::Exited,
        Answer::Changed(_, _) => Shape::Change,
        Answer::NoChange => Shape::NoChange,
        Answer::Go => go_shape(deed),
        Answer::Stop(_) => Shape::Stop,
        Answer::Entered => Shape::Entered,
        Answer::WrongMethod => Shape::WrongMethod,
        Answer::Reply(_) => Shape::Callback,
        Answer::Frames(_) => Shape::Stack,
        Answer::Code(_) => Shape::Code,
        Answer::NoCode => Shape::NoCode,
        Answer::Clear => Shape::Covered,
        Answer::Late => Shape::Late,
        Answer::NotLooked(_) => Shape::NotLooked,
        Answer::Used(_) => Shape::Used,
        Answer::Retired => Shape::Retired,
        Answer::Asked(_) => Shape::Asked,
        Answer::Opened(_, _) => Shape::Opened,
        Answer::Closed(_) => Shape::Closed,
        Answer::Told => Shape::Told,
        Answer::Gone => Shape::Gone,
        Answer::Census(_) => Shape::Counted,
        Answer::Count(_) => Shape::Count,
        Answer::State(_) => Shape::State,
        Answer::Refused(_) => Shape::Refusal,
    }
}
