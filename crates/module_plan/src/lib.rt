//! The steps that an update of the active submodules of a work tree would take; it takes none of
//! them.
#![tactic(auto)]

mod error;
mod inputs;
mod judge;
mod lines;
mod planned;
mod program;
mod seen;
mod step;
mod taken;
mod wanted;
mod way;

pub use error::ModuleError;
pub use planned::plan;
pub use program::{plan_text_by_setup, run_modules};
pub use step::{ModulePlan, Skipped, Step, StepKind, Why};
