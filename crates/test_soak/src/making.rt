//! Makers of jobs. All code that uses a maker is generic in the jobs, and names no lifetime of them.
use operations::job::Query;
use recorder::{RecordedJob, Recorder};
use std::sync::Wait;

/// Makes the jobs of a run.
pub trait Makes<J>: Drop {
    fn job(&self, query: Query) -> J;
}

/// Makes jobs without callbacks (queries).
#[derive(Drop)]
pub struct Plain;

impl Makes<Query> for Plain {
    fn job(&self, query: Query) -> Query {
        query
    }
}

/// Makes jobs that record where they run.
#[derive(Drop)]
pub struct Recording<'a, R> {
    pub rt: &'a R,
    pub recorder: &'a Recorder,
}

impl<'a, R: Wait> Makes<RecordedJob<'a, Query, R>> for Recording<'a, R> {
    fn job(&self, query: Query) -> RecordedJob<'a, Query, R> {
        RecordedJob::new(self.recorder, self.rt, query)
    }
}
