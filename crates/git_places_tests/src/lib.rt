//! Where work trees and their repositories are found: layouts, as git answers in them.
#![tactic(auto)]

#[cfg(test)]
mod answers;
#[cfg(test)]
mod layouts;
#[cfg(test)]
mod standing;
#[cfg(test)]
mod texts;
