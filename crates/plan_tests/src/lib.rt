//! What the planners answer: cases worked out by hand, each call that takes memory with enough of
//! it, and the texts of errors.
#![tactic(auto)]

#[cfg(test)]
mod calls;
#[cfg(test)]
mod modules;
#[cfg(test)]
mod states;
#[cfg(test)]
mod texts;
#[cfg(test)]
mod tree;
