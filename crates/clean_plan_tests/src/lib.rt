//! What a plan of a cleaning answers: cases worked out by hand, each call that takes memory with
//! enough of it, and the texts of errors.
#![tactic(auto)]

#[cfg(test)]
mod by_report;
#[cfg(test)]
mod others;
#[cfg(test)]
mod plans;
#[cfg(test)]
mod prepared;
#[cfg(test)]
mod taken_out;
#[cfg(test)]
mod texts;
#[cfg(test)]
mod tree;
