// Reads lines, and writes a picture or a page with it.
ghost use Rattle.std.specs.Prelude.{◌≡◌, ◌++◌, IfOk};
ghost use Rattle.replay.specs.Outcome.{FailedCalls};
ghost use Rattle.run_picture.specs.Runs.{shown_by};
ghost use Rattle.run_picture.specs.Drawn.{IsPicture};
ghost use Rattle.run_picture.specs.Outcome.{Drew, HoldsPicture, IsForm};

use crate::drawing::draw;
use crate::page::{HEAD, TAIL};
use crate::part::Part;
use crate::reading::read_run;
use crate::run::Run;
use replay::device::{Sink, Source};
use replay::stream::{ReplayFault, flush};
use std::alloc::{AllocError, Global};

/// The form in which a run is shown.
#[derive(Clone, Copy, Debug, PartialEq, Eq, Drop)]
pub enum Form {
    /// SVG alone.
    Picture,
    /// An HTML page with the picture, and beside it the list of the drawn lines.
    Page,
}

/// The request: a part of the run, in a form.
#[derive(Clone, Copy, Drop)]
pub struct Asked {
    pub form: Form,
    pub part: Part,
}

/// Reads the source to its end, and writes the picture of the requested part in the requested form. Memory grows with the part and not
/// beyond it. A call that failed isn't repeated.
pub fn draw_run<R: Source, W: Sink>(
    alloc: Global,
    source: &mut R,
    sink: &mut W,
    asked: Asked,
) -> Result<(), ReplayFault>
    requires source { R.failures source.old ≡ 0 }
    requires unread { R.reads source.old ≡ 0 }
    requires sink { W.failures sink.old ≡ 0 }
    ensures drew { Drew asked result (R.left source.old) (R.left source.new) (W.got sink.old)
        (W.got sink.new) }
    ensures failed { FailedCalls result (R.reads source.new) (R.failures source.new)
        (W.failures sink.new) }
{
    let run = read_run(alloc, source, asked.part)?;
    let Ok(mut text) = text_of(alloc, run, asked.form) else {
        return Err(ReplayFault::NoMemory);
    };
    match flush(&mut text, sink) {
        Ok(()) => Ok(()),
        Err(_) => Err(ReplayFault::WriteFailed),
    }
}

// The text of the run in this form.
fn text_of(alloc: Global, run: Run, form: Form) -> Result<Vec<u8>, AllocError>
    ensures { IfOk result (λ text. IsForm form (shown_by run.marks.items) text.items) }
{
    let picture = picture_of(alloc, run)?;
    match form {
        Form::Picture => Ok(picture),
        Form::Page => page_of(alloc, &picture),
    }
}

fn picture_of(alloc: Global, mut run: Run) -> Result<Vec<u8>, AllocError>
    ensures { IfOk result (λ text. IsPicture (shown_by run.marks.items) text.items) }
{
    run.finish()?;
    draw(alloc, &run)
}

// The page that contains the picture.
fn page_of(alloc: Global, picture: &[u8]) -> Result<Vec<u8>, AllocError>
    ensures { IfOk result (λ page. HoldsPicture picture.now page.items) }
{
    let mut page = Vec::new(alloc);
    page.extend_from_slice(HEAD.as_bytes())?;
    page.extend_from_slice(picture)?;
    page.extend_from_slice(TAIL.as_bytes())?;
    Ok(page)
}
