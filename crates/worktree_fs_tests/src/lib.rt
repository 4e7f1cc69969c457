//! What trees of files, interrupts, sinks and stacks of paths answer in cases worked out by hand;
//! beside it a caller that works on forks.
#![tactic(auto)]

pub mod at_once;
#[cfg(test)]
mod changes;
#[cfg(test)]
mod disk;
#[cfg(test)]
mod ends;
#[cfg(test)]
mod jobs;
#[cfg(test)]
mod memory;
#[cfg(test)]
mod owners;
#[cfg(test)]
mod path_stack;
#[cfg(test)]
mod rows;
#[cfg(test)]
mod texts;
