//! What the calls of dir_classify and dir_walk answer: cases worked out by hand, each call that
//! takes memory with enough of it, and the texts of errors.
#![tactic(auto)]

#[cfg(test)]
mod asked;
#[cfg(test)]
mod cases;
#[cfg(test)]
mod class_cases;
#[cfg(test)]
mod classes;
#[cfg(test)]
mod depths;
#[cfg(test)]
mod entries;
#[cfg(test)]
mod faults;
#[cfg(test)]
mod jobs;
#[cfg(test)]
mod noted;
#[cfg(test)]
mod odd;
#[cfg(test)]
mod refusals;
#[cfg(test)]
mod texts;
#[cfg(test)]
mod walk_cases;
#[cfg(test)]
mod walks;
