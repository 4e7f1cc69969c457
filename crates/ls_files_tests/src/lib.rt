//! Listings of work trees in memory, each with a whole `.git` that git wrote, by what git lists.
#![tactic(auto)]

#[cfg(test)]
mod answers;
#[cfg(test)]
mod listings;
#[cfg(test)]
mod words;
