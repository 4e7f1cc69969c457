//! The rules that come behind those of all directories.
ghost use Rattle.std.specs.Prelude.{◌≡◌, IfOk, OnOk, ◌++◌};
ghost use Rattle.git_setup.specs.GlobalRules as words;

use crate::below_top::exempt_top_from_star_rules;
use git_config_files::{Rules, RulesFile};
use gitbase_core::{Bytes, OutOfMemory};
use std::alloc::Global;

/// Lines, with a line feed behind the last one too.
pub fn lines_with_final_newline(alloc: Global, bytes: &[u8]) -> Result<Bytes, OutOfMemory>
    ensures { IfOk result (λ rules. rules ≡ words.lines_with_final_newline bytes.now) }
{
    let mut rules = Bytes::from_slice(alloc, bytes)?;
    if bytes.is_empty() {
        return Ok(rules);
    }
    if bytes.last() == Some(&b'\n') {
        return Ok(rules);
    }
    rules.extend(alloc, b"\n")?;
    Ok(rules)
}

/// The lines of a rules file, if there is one.
fn text_of_optional_rules_file(
    alloc: Global,
    file: &Option<RulesFile>,
) -> Result<Bytes, OutOfMemory>
    ensures { IfOk result (λ rules. rules ≡ words.text_of_optional_rules_file file.now) }
{
    match file {
        Some(file) => lines_with_final_newline(alloc, file.bytes.as_bytes()),
        None => Ok(Bytes::new(alloc)),
    }
}

/// Rules with another byte order mark in front, if they begin with one: a search takes one away.
pub fn double_byte_order_mark(alloc: Global, rules: Bytes) -> Result<Bytes, OutOfMemory>
    ensures { IfOk result (λ made. made ≡ words.double_byte_order_mark rules) }
{
    if !rules.as_bytes().starts_with(b"\xef\xbb\xbf") {
        return Ok(rules);
    }
    let mut made = Bytes::from_slice(alloc, b"\xef\xbb\xbf")?;
    made.extend(alloc, rules.as_bytes())?;
    Ok(made)
}

/// The rules of the user, and behind them those of the repository, as they leave the top alone.
#[tactic(auto, unfolding(crate::specs::GlobalRules::combined_global_rules))]
pub fn combined_global_rules(alloc: Global, rules: &Rules) -> Result<Bytes, OutOfMemory>
    ensures { IfOk result (λ globals. globals ≡ words.combined_global_rules rules.now) }
{
    let mut globals = text_of_optional_rules_file(alloc, &rules.user)?;
    let repository = text_of_optional_rules_file(alloc, &rules.repository)?;
    globals.extend(alloc, repository.as_bytes())?;
    Ok(double_byte_order_mark(
        alloc,
        exempt_top_from_star_rules(alloc, globals.as_bytes())?,
    )?)
}
