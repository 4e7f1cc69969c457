//! What words ask for, and how answers are written: cases worked out by hand, each call that takes
//! memory with enough of it, and what is said of words that ask for nothing.
#![tactic(auto)]

#[cfg(test)]
mod checking;
#[cfg(test)]
mod comparing;
#[cfg(test)]
mod helps;
#[cfg(test)]
mod lines;
#[cfg(test)]
mod words;
