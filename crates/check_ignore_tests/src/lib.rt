//! What is answered of paths in work trees in memory, by what git says.
#![tactic(auto)]

#[cfg(test)]
mod answers;
#[cfg(test)]
mod checks;
#[cfg(test)]
mod given;
