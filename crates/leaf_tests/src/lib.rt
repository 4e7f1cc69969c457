//! What the crates below the walk answer: `glob_rules`, `git_config_lite` and `submodule`.
//!
//! Their contracts say what each call answers. Here is what no contract says: that git answers the
//! same, where it does, how errors read, and that each call answers where there is memory. They
//! stand apart from those crates so that these are proved once.
#![tactic(auto)]

#[cfg(test)]
mod attribute_answers;
#[cfg(test)]
mod attributes;
#[cfg(test)]
mod config;
#[cfg(test)]
mod config_answers;
#[cfg(test)]
mod pathspec;
#[cfg(test)]
mod pathspec_answers;
#[cfg(test)]
mod rows;
#[cfg(test)]
mod rule_answers;
#[cfg(test)]
mod rules;
#[cfg(test)]
mod submodule_answers;
#[cfg(test)]
mod submodules;
#[cfg(test)]
mod submodules_as_git;
#[cfg(test)]
mod texts;
#[cfg(test)]
mod values;
