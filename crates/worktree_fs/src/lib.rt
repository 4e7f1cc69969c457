//! A tree of files as the layers above see it: asked call by call, with each failure counted;
//! beside it the question whether to stop, and where bytes are written to.
#![tactic(auto)]

mod answers;
mod composed;
mod disk;
mod faults;
mod git_texts;
mod interrupt;
mod memory;
mod name_list;
mod names;
mod owners;
mod path_stack;
mod repository;
mod sink;
mod streams;
mod worktree;

pub use answers::{Fault, ListError, MakeAnswer, NodeKind, ReadAnswer, ReadError, RemoveAnswer};
pub use disk::DiskWorktree;
pub use git_texts::{gitdir_path, without_trailing_line_ends};
pub use interrupt::{FlagInterrupt, Interrupt, PlannedInterrupt};
pub use memory::{AddError, CallKind, MemoryWorktree, NewNode};
pub use name_list::NameList;
pub use names::resolve_path_from_directory;
pub use owners::Owners;
pub use owners::disk::DiskOwners;
pub use owners::memory::{MemoryOwners, OwnedNode};
pub use owners::ownership::Ownership;
pub use path_stack::PathStack;
pub use path_stack::delegate::{PathDelegate, PathStackError};
pub use path_stack::steps::{NextComponent, is_relative_without_dots, next_component};
pub use repository::{
    common_git_directory, is_git, is_git_directory, is_git_directory_by_commondir,
    read_file_if_present, real_path_is, resolve_from_file_parent, try_is_git_repository,
};
pub use sink::{MemorySink, Sink};
pub use streams::StdSink;
pub use worktree::Worktree;
