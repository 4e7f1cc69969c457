//! What git's configurations say in a work tree, and which files of ignore rules they name: stacks,
//! as git reads them.
#![tactic(auto)]

#[cfg(test)]
mod answers;
#[cfg(test)]
mod owned;
#[cfg(test)]
mod owned_answers;
#[cfg(test)]
mod rules;
#[cfg(test)]
mod stacks;
#[cfg(test)]
mod surroundings;
#[cfg(test)]
mod texts;
