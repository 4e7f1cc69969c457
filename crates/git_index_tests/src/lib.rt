//! What is read of index files that git wrote, and of changed ones.
//!
//! The contract of `git_index` says what is read of any bytes. Here is that it is read where there
//! is memory, and how the refusals read; `scripts/compare-index` compares many more files with git.
//! The tests stand apart from the crate so that it is proved once.
#![tactic(auto)]

#[cfg(test)]
mod files;
#[cfg(test)]
mod tests;
