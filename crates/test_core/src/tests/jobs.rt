// Tests of `operations`: asks and jobs, on the image of a stack. A call whose name has `_by_` gives the reply that the ask itself, a query
// or a job makes, with its number, target and ask before it runs and after.
ghost use Rattle.std.specs.Prelude.{◌≡◌};
ghost use Rattle.frames.specs.ImageView.{IsSettled};
ghost use Rattle.operations.specs.Asks.{reply};

use super::{Player, joined, number_at, play, told};
use frames::image::Image;
use operations::Ask;
use operations::job::{Call, Done, HandshakeOp, Job, Query};
use std::alloc::{AllocError, Global};
use std::process::Abort;
use std::sync::Arc;
use std::sync::atomic::{AtomicU64, Ordering};

// An image, and how often callbacks of jobs were called.
#[derive(Drop)]
struct Asked {
    image: Image,
    calls: Arc<AtomicU64>,
}

impl Player for Asked {
    fn answer<R: Abort>(&mut self, rt: &R, alloc: Global, call: &str, numbers: &[u64]) -> String {
        match call.split_once("_by_") {
            Some((asked, way)) => {
                let ask = ask_of(rt, asked, numbers);
                told_by(rt, alloc, &self.image, &self.calls, ask, way)
            }
            None if call == "calls" => told(rt, alloc, self.calls.load(Ordering::SeqCst)),
            None => self.image.answer(rt, alloc, call, numbers),
        }
    }
}

fn ask_of(rt: &impl Abort, asked: &str, numbers: &[u64]) -> Ask {
    match asked {
        "depth" => Ask::Depth,
        "top" => Ask::Top,
        _ => Ask::CountOf(number_at(rt, numbers, 0)),
    }
}

fn told_by(
    rt: &impl Abort,
    alloc: Global,
    image: &Image,
    calls: &Arc<AtomicU64>,
    ask: Ask,
    way: &str,
) -> String {
    match way {
        "ask" => told(rt, alloc, ask.reply_on(image)),
        "query" => told_of_query(rt, alloc, Query::new(9, ask), image),
        "numbered_query" => told_of_errand(rt, alloc, Query::new(9, ask), image),
        _ => {
            let theirs = Arc::try_clone(calls).expect(rt, "no memory");
            told_by_job(rt, alloc, image, theirs, ask, way == "job").expect(rt, "no memory")
        }
    }
}

fn settled(rt: &impl Abort, image: &Image)
    ensures { IsSettled image.now }
{
    if !image.is_settled() {
        panic!(rt; "not settled")
    }
}

// The reply by a job whose callback counts its calls, in a variable that it captured. The job runs as it is, or under another number.
fn told_by_job(
    rt: &impl Abort,
    alloc: Global,
    image: &Image,
    calls: Arc<AtomicU64>,
    ask: Ask,
    as_it_is: bool,
) -> Result<String, AllocError> {
    let call: Call = Box::new(
        alloc,
        move |image: &Image| -> u64
            ensures { result ≡ reply ask image.now.frames }
        {
            calls.fetch_add(1, Ordering::SeqCst);
            ask.reply_on(image)
        },
    )?;
    let job = Job::new(9, ask, call);
    if as_it_is {
        return Ok(told_of_job(rt, alloc, job, image));
    }
    Ok(told_of_errand(rt, alloc, job, image))
}

fn told_of_query(rt: &impl Abort, alloc: Global, query: Query, image: &Image) -> String {
    settled(rt, image);
    told_of_done(rt, alloc, query.run_on(image))
}

fn told_of_job(rt: &impl Abort, alloc: Global, job: Job, image: &Image) -> String {
    let before = told(rt, alloc, (job.op(), job.target(), job.ask()));
    settled(rt, image);
    let done = job.run(image);
    joined(rt, before, told_of_done(rt, alloc, done))
}

fn told_of_errand<J: HandshakeOp>(
    rt: &impl Abort,
    alloc: Global,
    errand: J,
    image: &Image,
) -> String {
    let before = told(
        rt,
        alloc,
        (errand.op_of(), errand.target_of(), errand.ask_of()),
    );
    settled(rt, image);
    let done = run_under_another_number(errand, image);
    joined(rt, before, told_of_done(rt, alloc, done))
}

// A function that knows only the trait.
fn run_under_another_number<J: HandshakeOp>(errand: J, image: &Image) -> Done
    requires { IsSettled image.now }
    ensures { J.may_answer errand image.now result.reply }
{
    errand.numbered(5).run_on(image)
}

fn told_of_done(rt: &impl Abort, alloc: Global, done: Done) -> String {
    let numbers = (done.op(), done.target(), done.ask(), done.reply());
    told(rt, alloc, numbers)
}

#[test]
fn asks_are_answered(rt: HostRuntime) {
    // The frames 0:1, 1:i, 0:1, published; then the first two of them, at first not published. A callback keeps what it captured.
    let mut asked = Asked {
        image: Image::new(rt.alloc()).expect(&rt, "no memory"),
        calls: Arc::new(rt.alloc(), AtomicU64::new(0)).expect(&rt, "no memory"),
    };
    play(
        &rt,
        rt.alloc(),
        &mut asked,
        "\
push 0 0 1 => Ok(()); push 1 => Ok(()); push 0 0 1 => Ok(()); begin => Ok(())
next => Some(Change { code: CodeId { slot: 0, serial: 1 }, by: 2 }); end => Ok(())
depth_by_ask => 3; count_by_ask 1 => 2; count_by_ask 2 => 0; top_by_ask => 1
depth_by_numbered_query => (0, 9, Depth) (5, 9, Depth, 3); count_by_query 1 => (0, 9, CountOf(1), 2)
calls => 0
depth_by_numbered_job => (0, 9, Depth) (5, 9, Depth, 3)
calls => 1
depth_by_job => (0, 9, Depth) (0, 9, Depth, 3); count_by_job 1 => (0, 9, CountOf(1)) (0, 9, CountOf(1), 2)
count_by_job 2 => (0, 9, CountOf(2)) (0, 9, CountOf(2), 0); top_by_job => (0, 9, Top) (0, 9, Top, 1)
calls => 5
pop => Ok(Frame { method: 0, code: Some(CodeId { slot: 0, serial: 1 }) })
depth_by_ask => 2; count_by_ask 1 => 1; count_by_ask 2 => 0; top_by_ask => 0; begin => Ok(())
next => Some(Change { code: CodeId { slot: 0, serial: 1 }, by: -1 }); end => Ok(())
depth_by_job => (0, 9, Depth) (0, 9, Depth, 2); count_by_job 1 => (0, 9, CountOf(1)) (0, 9, CountOf(1), 1)
count_by_job 2 => (0, 9, CountOf(2)) (0, 9, CountOf(2), 0); top_by_job => (0, 9, Top) (0, 9, Top, 0)",
    );
}
