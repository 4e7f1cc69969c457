//! Patterns that stand before all other ignore rules.
ghost use Rattle.std.specs.Prelude.{◌≡◌, ◌++◌, IfOk, OnOk};
ghost use Rattle.tizhagor.specs.Patterns as words;

use git_setup::exempt_top_from_star_rules;
use gitbase_core::{Bytes, OutOfMemory};
use std::alloc::Global;

/// Whether there are patterns.
pub fn is_nonempty_list(patterns: &[Bytes]) -> bool
    ensures { result ≡ words.is_nonempty_list patterns.now }
{
    match patterns {
        [] => false,
        _ => true,
    }
}

/// Adds a pattern as a line of a rules file, behind a line feed.
fn append_pattern_as_rule_line(text: &mut Vec<u8>, pattern: &[u8]) -> Result<(), OutOfMemory>
    ensures { OnOk result (text.new.items ≡ text.old.items ++ words.rule_line_of_pattern
        pattern.now) }
{
    text.push(b'\n')?;
    if pattern.starts_with(b"#") {
        text.push(b'\\')?;
    }
    text.extend_from_slice(pattern)?;
    Ok(())
}

/// Patterns as the text of a rules file, as they leave the top of the work tree alone.
pub fn rules_text_of_patterns(alloc: Global, patterns: &[Bytes]) -> Result<Bytes, OutOfMemory>
    ensures { IfOk result (λ rules. rules ≡ words.rules_text_of_patterns patterns.now) }
{
    let mut text = Vec::new(alloc);
    for pattern in patterns {
        append_pattern_as_rule_line(&mut text, pattern.as_bytes())?;
    }
    exempt_top_from_star_rules(alloc, &text)
}
