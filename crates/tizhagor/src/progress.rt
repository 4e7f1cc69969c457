//! How far a walk is, on a terminal.
ghost use Rattle.std.specs.Prelude.{◌≡◌, ◌≤◌, false, IfOk};
ghost use Rattle.std.specs.Bool.{OnTrue, OnFalse};
ghost use Rattle.worktree_fs.specs.Causes.{CountIncrementedOrSaturated};

use git_places::Variable;
use gitbase_core::OutOfMemory;
use std::alloc::Global;
use std::cell::Cell;
use std::io::{IsTerminal, Print};
use std::marker::Model;
use std::rc::Rc;
use std::rt::HostRuntime;
use std::str;
use std::time::{Duration, Instant};
use worktree_fs::{Fault, Interrupt, Sink, StdSink};

/// How many milliseconds a walk goes on before its progress is shown, where `GIT_PROGRESS_DELAY`
/// says nothing.
const DELAY: u64 = 500;

/// How many milliseconds a line of progress stands before the next.
const PAUSE: u64 = 100;

/// The line on standard error, and what it says.
#[derive(Drop)]
struct Line {
    /// How many directories were begun.
    begun: Cell<u64>,
    /// When it is written next. None where it never is.
    due: Cell<Option<Instant>>,
    /// Whether it stands there.
    is_shown: Cell<bool>,
}

/// An interrupt that is never raised, and shows on standard error how often it was asked: how many
/// directories a walk has begun. It does so where that is a terminal, half a second after it was
/// made or as many seconds as `GIT_PROGRESS_DELAY` says, and ten times a second from then on.
///
/// Its forks share its line. Contracts see both counts.
#[derive(Drop)]
pub struct Progress<'a> {
    rt: &'a HostRuntime,
    line: Rc<Line>,
    questions: u64,
    raised: u64,
}

impl<'a> Model for Progress<'a> {
    ghost use Rattle.worktree_fs.specs.Ends.{InterruptCounts};

    ghost Value = { InterruptCounts };

    ghost view = { λ p. record { questions = p.questions; raised = p.raised } };
}

/// How long a walk goes on before its progress is shown, as git's variable says it: a number of
/// seconds.
fn progress_delay_of_variables(variables: &[Variable]) -> Duration {
    for variable in variables {
        if variable.name.as_bytes() == b"GIT_PROGRESS_DELAY".as_slice() {
            if let Some(delay) = parse_seconds(variable.value.as_bytes()) {
                return delay;
            }
        }
    }
    Duration::from_millis(DELAY)
}

/// The number of seconds that a text says. None where it says none.
fn parse_seconds(text: &[u8]) -> Option<Duration> {
    let seconds = str::from_utf8(text).ok()?.parse::<u64>().ok()?;
    Some(Duration::from_secs(seconds))
}

/// When a line is due for the first time. None where it never is.
fn first_due_time_on_terminal(rt: &HostRuntime, variables: &[Variable]) -> Option<Instant> {
    if !rt.stderr().is_terminal() {
        return None;
    }
    Instant::now(rt)
        .ok()?
        .checked_add(progress_delay_of_variables(variables))
}

/// Writes to standard error; that it refuses the bytes is no matter.
fn write_to_stderr_ignoring_refusal(rt: &HostRuntime, text: &[u8]) {
    let _ = rt.stderr().write_some(text);
}

impl Line {
    /// Counts a directory, and shows the count where that is due.
    fn count(&self, rt: &HostRuntime, alloc: Global) {
        let begun = self.begun.get().saturating_add(1);
        self.begun.set(begun);
        let Some(due) = self.due.get() else {
            return;
        };
        match Instant::now(rt) {
            Ok(now) if now >= due => self.show_directory_count(rt, alloc, now, begun),
            _ => {}
        }
    }

    /// Shows how many directories were begun.
    fn show_directory_count(&self, rt: &HostRuntime, alloc: Global, now: Instant, begun: u64) {
        self.due.set(now.checked_add(Duration::from_millis(PAUSE)));
        if let Ok(text) = format!(in alloc; "\rtizhagor: {begun} directories") {
            write_to_stderr_ignoring_refusal(rt, text.as_bytes());
            self.is_shown.set(true);
        }
    }

    /// Wipes the line where it stands.
    fn wipe_line_if_shown(&self, rt: &HostRuntime) {
        if self.is_shown.get() {
            self.is_shown.set(false);
            write_to_stderr_ignoring_refusal(rt, b"\r\x1b[K");
        }
    }
}

impl<'a> Progress<'a> {
    /// Nothing was asked so far.
    ///
    /// # Errors
    ///
    /// - `OutOfMemory` for want of memory.
    pub fn new(
        rt: &'a HostRuntime,
        alloc: Global,
        variables: &[Variable],
    ) -> Result<Progress<'a>, OutOfMemory>
        ensures { IfOk result (λ p. p ≡ record { questions = 0; raised = 0 }) }
    {
        let line = Line {
            begun: Cell::new(0),
            due: Cell::new(first_due_time_on_terminal(rt, variables)),
            is_shown: Cell::new(false),
        };
        Ok(Progress {
            rt,
            line: Rc::new(alloc, line)?,
            questions: 0,
            raised: 0,
        })
    }

    /// The standard output, before whose first bytes the line is wiped.
    ///
    /// # Errors
    ///
    /// - `OutOfMemory` for want of memory.
    pub fn out(&self) -> Result<Wiping<'a>, OutOfMemory>
        ensures { IfOk result (λ wiping. wiping ≡ 0) }
    {
        Ok(Wiping {
            rt: self.rt,
            line: self.line.clone()?,
            sink: StdSink::out(self.rt),
        })
    }

    /// The standard error, before whose first bytes the line is wiped.
    ///
    /// # Errors
    ///
    /// - `OutOfMemory` for want of memory.
    pub fn err(&self) -> Result<Wiping<'a>, OutOfMemory>
        ensures { IfOk result (λ wiping. wiping ≡ 0) }
    {
        Ok(Wiping {
            rt: self.rt,
            line: self.line.clone()?,
            sink: StdSink::err(self.rt),
        })
    }

    /// Wipes the line where it stands: behind a walk of which nothing is written.
    pub fn wipe_line_if_shown(&self) {
        self.line.wipe_line_if_shown(self.rt);
    }
}

impl<'a> Interrupt for Progress<'a> {
    ghost questions = { λ p. p.questions };

    ghost raised = { λ p. p.raised };

    /// Never says to stop. Shows how far the walk is, where that is due.
    fn is_raised(&mut self) -> bool
        // It never says to stop, and counts that it was asked and nothing else.
        ensures never { result ≡ false }
        ensures calm { self.new.raised ≡ self.old.raised }
        // What any interrupt says.
        ensures questions { CountIncrementedOrSaturated self.old.questions self.new.questions }
        ensures asked_later { self.old.questions ≤ self.new.questions }
        ensures cause { OnTrue result (CountIncrementedOrSaturated self.old.raised
            self.new.raised) }
        ensures kept { OnFalse result (self.new.raised ≡ self.old.raised) }
        ensures later { self.old.raised ≤ self.new.raised }
    {
        self.questions = self.questions.saturating_add(1);
        self.line.count(self.rt, self.rt.alloc());
        false
    }

    /// Shares the line.
    fn fork(&self, _alloc: Global) -> Result<Progress<'a>, OutOfMemory> {
        Ok(Progress {
            rt: self.rt,
            line: self.line.clone()?,
            questions: 0,
            raised: 0,
        })
    }

    fn absorb(&mut self, other: Progress<'a>) {
        self.questions = self.questions.saturating_add(other.questions);
        self.raised = self.raised.saturating_add(other.raised);
    }
}

/// A stream of the process, before whose first bytes the line of progress is wiped.
///
/// Contracts see the count of refusals, as of the stream.
#[derive(Drop)]
pub struct Wiping<'a> {
    rt: &'a HostRuntime,
    line: Rc<Line>,
    sink: StdSink<'a>,
}

impl<'a> Model for Wiping<'a> {
    ghost use Rattle.std.specs.Prelude.{ℕ};

    ghost Value = { ℕ };

    ghost view = { λ w. w.sink };
}

impl<'a> Sink for Wiping<'a> {
    ghost use Rattle.std.specs.Prelude.{None};

    ghost written = { λ _. None };

    ghost refusals = { λ w. w };

    fn write(&mut self, bytes: &[u8]) -> Result<usize, Fault> {
        self.line.wipe_line_if_shown(self.rt);
        self.sink.write(bytes)
    }
}
