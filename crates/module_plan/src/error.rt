//! Why there is no plan.
use gitbase_core::{OutOfMemory, PathText};
use thiserror::Error;

/// Why there is no plan.
#[derive(Debug, Drop, PartialEq, Eq, Error)]
pub enum ModuleError {
    /// This value of `submodule.active`, counted from 1, is no path spec, or its path is absolute
    /// or leads out of the top.
    #[error("ActiveSpec")]
    ActiveSpec { value: usize },
    /// The worktree failed when it was asked for the node at this path, which begins with the root.
    #[error("Fault")]
    Fault { path: PathText },
    /// Want of memory.
    #[error("OutOfMemory")]
    OutOfMemory,
}

impl From<OutOfMemory> for ModuleError {
    ghost use Rattle.std.specs.Prelude.{◌≡◌};
    ghost use Rattle.module_plan.specs.declared.error.ModuleError.TheVariants as errors;

    ghost from_gives = { λ _ e. e ≡ errors.OutOfMemory };

    fn from(_refused: OutOfMemory) -> ModuleError {
        ModuleError::OutOfMemory
    }
}
