//! What stacks of directories answer, in cases that were worked out by hand or asked of git; beside
//! it lookups whose contract is the same for each state.
#![tactic(auto)]

#[cfg(test)]
mod answers;
#[cfg(test)]
mod attributes;
#[cfg(test)]
mod cases;
#[cfg(test)]
mod checkout;
#[cfg(test)]
mod directories;
#[cfg(test)]
mod failing;
pub mod lookups;
#[cfg(test)]
mod mapped;
#[cfg(test)]
mod nested;
#[cfg(test)]
mod steps;
#[cfg(test)]
mod texts;
