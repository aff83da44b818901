//! A picture of a run: it reads lines of events and writes an SVG or a page, over the caller's devices.
//! `timeline` is the program that calls it.
//! Read `src/picture.rt` first, then `specs/Drawn.antt` and `docs/start/TIMELINE.md`.
#![tactic(auto)]

mod answers;
mod canvas;
mod drawing;
mod fault;
mod layout;
mod legend;
mod marks;
mod names;
mod page;
mod painting;
mod part;
mod picture;
mod reading;
mod run;
mod shapes;
mod style;
mod words;

pub use fault::Fault;
pub use part::{Part, WHOLE};
pub use picture::{Asked, Form, draw_run};
pub use words::read_words;
