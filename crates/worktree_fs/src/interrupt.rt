//! Whether a long call is to stop.
ghost use Rattle.std.specs.Prelude.{◌≡◌, ℕ, ◌≤◌, if◌then◌else◌, Some, None, Ok, IfOk};
ghost use Rattle.std.specs.Bool.{OnTrue, OnFalse};
ghost use Rattle.worktree_fs.specs.Causes.{CountIncrementedOrSaturated};
ghost use Rattle.worktree_fs.specs.Ends.{is_call_at_or_after_planned, saturating_increment, saturating_sum, interrupt_after_question, interrupt_with_counts_reset};

use gitbase_core::OutOfMemory;
use std::alloc::Global;
use std::cell::Cell;
use std::marker::Model;
use std::rc::Rc;

/// Something that may ask a long call to stop, and counts how often it was asked and how often it
/// said so.
///
/// Both counts are of 64 bits, stand at their last value, and never fall.
pub trait Interrupt {
    /// How often it was asked.
    ghost questions: { Self → ℕ };

    /// How often it said to stop.
    ghost raised: { Self → ℕ };

    /// Whether to stop now.
    fn is_raised(&mut self) -> bool
        ensures questions { CountIncrementedOrSaturated (questions self.old) (questions self.new) }
        ensures asked_later { questions self.old ≤ questions self.new }
        ensures cause { OnTrue result (CountIncrementedOrSaturated (raised self.old)
            (raised self.new)) }
        ensures kept { OnFalse result (raised self.new ≡ raised self.old) }
        ensures later { raised self.old ≤ raised self.new };

    /// Another one, which was not asked yet; whether and when it is raised is each implementation's
    /// own affair.
    ///
    /// Who takes a fork hands it back by `absorb`: it cannot be let go in generic code.
    ///
    /// # Errors
    ///
    /// - `OutOfMemory` for want of memory.
    fn fork(&self, alloc: Global) -> Result<Self, OutOfMemory>
        ensures questions { IfOk result (λ fork. questions fork ≡ 0) }
        ensures raised { IfOk result (λ fork. raised fork ≡ 0) };

    /// Adds the counts of a fork, and lets it go.
    fn absorb(&mut self, other: Self)
        ensures questions { questions self.new ≡ saturating_sum (questions self.old)
            (questions other) }
        ensures asked_later { questions self.old ≤ questions self.new }
        ensures raised { raised self.new ≡ saturating_sum (raised self.old) (raised other) }
        ensures later { raised self.old ≤ raised self.new };
}

/// An interrupt that is raised from a planned question on, or never.
///
/// Contracts see the planned question and both counts.
#[derive(Debug, Drop)]
pub struct PlannedInterrupt {
    first: Option<u64>,
    questions: u64,
    raised: u64,
}

impl Model for PlannedInterrupt {
    ghost use Rattle.worktree_fs.specs.Ends.{PlannedInterruptModel};

    ghost Value = { PlannedInterruptModel };

    ghost view = { λ i. record { first = i.first; questions = i.questions; raised = i.raised } };
}

impl PlannedInterrupt {
    /// One that is never raised.
    pub fn never() -> PlannedInterrupt
        ensures { result ≡ record { first = None; questions = 0; raised = 0 } }
    {
        PlannedInterrupt {
            first: None,
            questions: 0,
            raised: 0,
        }
    }

    /// One that is raised from the `nth` question on, counted from 1.
    pub fn raised_from_nth_question(nth: u64) -> PlannedInterrupt
        ensures { result ≡ record { first = Some nth; questions = 0; raised = 0 } }
    {
        PlannedInterrupt {
            first: Some(nth),
            questions: 0,
            raised: 0,
        }
    }
}

impl Interrupt for PlannedInterrupt {
    ghost questions = { λ i. i.questions };

    ghost raised = { λ i. i.raised };

    fn is_raised(&mut self) -> bool
        ensures due { result ≡ is_call_at_or_after_planned self.old.first
            (saturating_increment self.old.questions) }
        ensures state { self.new ≡ interrupt_after_question self.old }
        ensures asked_later { self.old.questions ≤ self.new.questions }
        ensures later { self.old.raised ≤ self.new.raised }
    {
        self.questions = self.questions.saturating_add(1);
        let is_due = match self.first {
            Some(first) => first <= self.questions,
            None => false,
        };
        if is_due {
            self.raised = self.raised.saturating_add(1);
        }
        is_due
    }

    /// Raised from the fork's own question of the same number on.
    fn fork(&self, _alloc: Global) -> Result<PlannedInterrupt, OutOfMemory>
        ensures { result ≡ Ok (interrupt_with_counts_reset self.now) }
    {
        Ok(PlannedInterrupt {
            first: self.first,
            questions: 0,
            raised: 0,
        })
    }

    fn absorb(&mut self, other: PlannedInterrupt)
        ensures state { self.new
            ≡ record {
              first = self.old.first;
              questions = saturating_sum self.old.questions other.questions;
              raised = saturating_sum self.old.raised other.raised;
            } }
        ensures asked_later { self.old.questions ≤ self.new.questions }
        ensures later { self.old.raised ≤ self.new.raised }
    {
        self.questions = self.questions.saturating_add(other.questions);
        self.raised = self.raised.saturating_add(other.raised);
    }
}

/// An interrupt that is raised once its flag is, which it shares with its forks. Something that is
/// called on the way, as a worktree of the caller's own, raises it through a fork.
///
/// Contracts see both counts, and not the flag.
#[derive(Drop)]
pub struct FlagInterrupt {
    flag: Rc<Cell<bool>>,
    questions: u64,
    raised: u64,
}

impl Model for FlagInterrupt {
    ghost use Rattle.worktree_fs.specs.Ends.{InterruptCounts};

    ghost Value = { InterruptCounts };

    ghost view = { λ i. record { questions = i.questions; raised = i.raised } };
}

impl FlagInterrupt {
    /// One whose flag is not raised.
    ///
    /// # Errors
    ///
    /// - `OutOfMemory` for want of memory.
    pub fn new(alloc: Global) -> Result<FlagInterrupt, OutOfMemory>
        ensures { IfOk result (λ i. i ≡ record { questions = 0; raised = 0 }) }
    {
        Ok(FlagInterrupt {
            flag: Rc::new(alloc, Cell::new(false))?,
            questions: 0,
            raised: 0,
        })
    }

    /// Raises the flag, for its forks too.
    pub fn raise(&self) {
        self.flag.set(true);
    }
}

impl Interrupt for FlagInterrupt {
    ghost questions = { λ i. i.questions };

    ghost raised = { λ i. i.raised };

    fn is_raised(&mut self) -> bool
        ensures state { self.new
            ≡ record {
              questions = saturating_increment self.old.questions;
              raised = if result then saturating_increment self.old.raised else self.old.raised;
            } }
        ensures asked_later { self.old.questions ≤ self.new.questions }
        ensures later { self.old.raised ≤ self.new.raised }
    {
        self.questions = self.questions.saturating_add(1);
        let is_raised = self.flag.get();
        if is_raised {
            self.raised = self.raised.saturating_add(1);
        }
        is_raised
    }

    /// Shares the flag.
    fn fork(&self, _alloc: Global) -> Result<FlagInterrupt, OutOfMemory>
        ensures { IfOk result (λ fork. fork ≡ record { questions = 0; raised = 0 }) }
    {
        Ok(FlagInterrupt {
            flag: self.flag.clone()?,
            questions: 0,
            raised: 0,
        })
    }

    fn absorb(&mut self, other: FlagInterrupt)
        ensures state { self.new
            ≡ record {
              questions = saturating_sum self.old.questions other.questions;
              raised = saturating_sum self.old.raised other.raised;
            } }
        ensures asked_later { self.old.questions ≤ self.new.questions }
        ensures later { self.old.raised ≤ self.new.raised }
    {
        self.questions = self.questions.saturating_add(other.questions);
        self.raised = self.raised.saturating_add(other.raised);
    }
}
