//! What the small types answer where no clause says it, and callers that fork a store.
#![tactic(auto)]

pub mod forks;
#[cfg(test)]
mod tests;
