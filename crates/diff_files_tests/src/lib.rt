//! Differences of work trees in memory, by what git prints, and the stats of the disk.
#![tactic(auto)]

#[cfg(test)]
mod answers;
#[cfg(test)]
mod differences;
#[cfg(test)]
mod disk;
#[cfg(test)]
mod listing_words;
#[cfg(test)]
mod listings;
#[cfg(test)]
mod tree;
#[cfg(test)]
mod words;
