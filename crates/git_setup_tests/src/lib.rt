//! The setups of work trees in memory, each with a whole `.git` that git wrote, by what git says of
//! them.
#![tactic(auto)]

#[cfg(test)]
mod answers;
#[cfg(test)]
mod asked;
#[cfg(test)]
mod refusals;
#[cfg(test)]
mod setups;
#[cfg(test)]
mod specs;
