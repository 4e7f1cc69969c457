//! What would go of work trees in memory, by what git says.
#![tactic(auto)]

#[cfg(test)]
mod answers;
#[cfg(test)]
mod cleanings;
#[cfg(test)]
mod words;
