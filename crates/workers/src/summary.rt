//! The summary of a run, and its text.
ghost use Rattle.std.specs.Prelude.{◌≡◌, ◌+◌, IfOk, length, Some};
ghost use Rattle.workers.specs.Summaries.{ending_text, line_text, summary_text, Tells, AreLines, some_compiled};

use crate::fault::RunFault;
use crate::report::{Ending, Report};
use bodies::Name;
use desk::Receipt;
use std::alloc::Global;
use std::fmt;
use std::marker::Model;

/// The line of one thread: its name, how its run ended, and how many marks it made.
#[derive(Clone, Copy, PartialEq, Eq, Debug, Drop)]
pub struct Line {
    pub name: u64,
    pub ending: Ending,
    pub made: u64,
}

/// The summary of a run: the report and the line of each thread, in rising name; whether some frame was compiled; the receipts of the
/// installed and freed codes; and the sum of all count words. `{}` is the text; each line ends with a newline.
#[derive(Drop)]
pub struct Summary<N: Name> {
    pub(crate) reports: Vec<Report<N>>,
    pub(crate) lines: Vec<Line>,
    pub(crate) compiled: bool,
    pub(crate) installed: Vec<Receipt<N>>,
    pub(crate) freed: Vec<Receipt<N>>,
    pub(crate) counts: u64,
}

impl<N: Name> Model for Summary<N> {
    ghost use Rattle.workers.specs.Summaries.{Summed};

    ghost Value = { Summed };

    ghost view = { λ s. record {
      reports = s.reports.items;
      lines = s.lines.items;
      compiled = s.compiled;
      installed = s.installed.items;
      freed = s.freed.items;
      counts = s.counts;
    } };
}

impl<N: Name> Summary<N> {
    /// The report of each thread.
    pub fn reports(&self) -> &[Report<N>]
        ensures { result.now ≡ self.now.reports }
    {
        self.reports.as_slice()
    }

    /// The line of each thread.
    pub fn lines(&self) -> &[Line]
        ensures { result.now ≡ self.now.lines }
    {
        self.lines.as_slice()
    }

    /// Whether some frame was compiled.
    pub fn compiled(&self) -> bool
        ensures { result ≡ self.now.compiled }
    {
        self.compiled
    }

    /// The receipts of the codes that were installed, in order.
    pub fn installed(&self) -> &[Receipt<N>]
        ensures { result.now ≡ self.now.installed }
    {
        self.installed.as_slice()
    }

    /// The receipts of the codes that were freed, in order.
    pub fn freed(&self) -> &[Receipt<N>]
        ensures { result.now ≡ self.now.freed }
    {
        self.freed.as_slice()
    }

    /// The sum of all count words.
    pub fn counts(&self) -> u64
        ensures { result ≡ self.now.counts }
    {
        self.counts
    }
}

impl Ending {
    /// The word for this ending in the line of its thread.
    pub fn word(self) -> &'static str
        ensures { result.now ≡ ending_text self }
    {
        match self {
            Ending::Finished => "finished",
            Ending::Overflow => "overflow",
            Ending::OutOfFuel => "fuel",
        }
    }
}

impl fmt::Display for Line {
    ghost output = { λ line. Some (line_text line) };

    fn fmt<W: fmt::Write>(&self, f: &mut fmt::Formatter<W>) -> fmt::Result {
        let ending = self.ending.word();
        write!(f, "thread {} {ending} {}\n", self.name, self.made)
    }
}

impl<N: Name> fmt::Display for Summary<N> {
    ghost output = { λ summary. Some (summary_text summary) };

    fn fmt<W: fmt::Write>(&self, f: &mut fmt::Formatter<W>) -> fmt::Result {
        let lines = self.lines.as_slice();
        write!(f, "threads {}\n", lines.len())?;
        for line in lines {
            write!(f, "{line}")?;
        }
        let compiled = if self.compiled { "yes" } else { "no" };
        write!(f, "compiled {compiled}\n")?;
        write!(
            f,
            "codes {} freed {}\n",
            self.installed.len(),
            self.freed.len()
        )?;
        write!(f, "counts {}\n", self.counts)
    }
}

/// The lines of threads whose names rise from 1 on. Fails if a thread has another name or a mark of it was refused.
pub fn lines_of<N: Name>(alloc: Global, reports: &[Report<N>]) -> Result<Vec<Line>, RunFault>
    ensures lines { IfOk result (λ lines. AreLines 1 reports.now lines.items) }
    ensures len { IfOk result (λ lines. length lines.items ≡ length reports.now) }
{
    let mut lines = Vec::with_capacity(alloc, reports.len())?;
    for report in reports {
        let line = line_of(report, lines.len() as u64 + 1)?;
        lines.push_reserved(line);
    }
    Ok(lines)
}

// The line of the thread with this name.
fn line_of<N: Name>(report: &Report<N>, name: u64) -> Result<Line, RunFault>
    ensures { IfOk result (λ line. (line.name ≡ name) × Tells report.now line) }
{
    let Ok(ending) = report.ending() else {
        return Err(RunFault::Refused);
    };
    if report.name() != name {
        return Err(RunFault::Refused);
    }
    Ok(Line {
        name,
        ending,
        made: report.made(),
    })
}

/// Whether some frame of some thread was compiled.
pub fn some_compiled<N: Name>(reports: &[Report<N>]) -> bool
    ensures { result ≡ some_compiled reports.now }
{
    let mut rest = reports;
    while let Some((report, others)) = rest.split_first() {
        if report.compiled() {
            return true;
        }
        rest = others;
    }
    false
}
