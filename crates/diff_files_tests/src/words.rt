//! What is asked by the words of a row.
use diff_files::{Comparison, Form, Submodules};
use glob_rules::pathspec::{Defaults, Search, Spec};
use std::alloc::Global;

/// What is asked where there is no word.
fn usual(index_time: u32) -> Comparison {
    Comparison {
        form: Form::Raw,
        ends_in_nul: false,
        quote_path: true,
        file_mode: true,
        symlinks: true,
        trust_ctime: true,
        check_stat: true,
        sparse_checkout: false,
        converts: false,
        submodules: Submodules::Told,
        index_time,
    }
}

/// Takes a word, unless it is about submodules.
fn take(comparison: &mut Comparison, word: &[u8]) {
    match word {
        b"-z" => comparison.ends_in_nul = true,
        b"--name-only" => comparison.form = Form::NameOnly,
        b"--name-status" => comparison.form = Form::NameStatus,
        b"core.quotePath=false" => comparison.quote_path = false,
        b"core.fileMode=false" => comparison.file_mode = false,
        b"core.symlinks=false" => comparison.symlinks = false,
        b"core.trustctime=false" => comparison.trust_ctime = false,
        b"core.checkStat=minimal" => comparison.check_stat = false,
        b"core.sparseCheckout=true" => comparison.sparse_checkout = true,
        b"sparse.expectFilesOutsideOfPatterns=true" => comparison.sparse_checkout = false,
        b"core.autocrlf=true" => comparison.converts = true,
        _ => {}
    }
}

/// What a word says of submodules, if it is about them.
fn submodules_by(word: &[u8]) -> Option<Submodules> {
    match word {
        b"submodule.a.ignore=all" => Some(Submodules::MayBeLeftOut),
        b"--ignore-submodules" => Some(Submodules::LeftOut),
        b"--ignore-submodules=all" => Some(Submodules::LeftOut),
        b"--ignore-submodules=none" => Some(Submodules::Told),
        b"--ignore-submodules=dirty" => Some(Submodules::Told),
        b"--ignore-submodules=untracked" => Some(Submodules::Told),
        _ => None,
    }
}

/// What is asked by words, parted by `|`.
pub fn comparison_of(index_time: u32, words: &[u8]) -> Comparison {
    let mut comparison = usual(index_time);
    for word in words.split(|byte| *byte == b'|') {
        take(&mut comparison, word);
        if let Some(submodules) = submodules_by(word) {
            comparison.submodules = submodules;
        }
    }
    comparison
}

pub fn spec_of(alloc: Global, text: &[u8]) -> Option<Spec> {
    Spec::parse(alloc, text, Defaults { ignore_case: false }).ok()
}

/// Path specs, parted by `|`.
pub fn specs_of(alloc: Global, words: &[u8]) -> Option<Search> {
    let mut specs = Vec::new(alloc);
    for word in words.split(|byte| *byte == b'|') {
        if !word.is_empty() {
            specs.push(spec_of(alloc, word)?).ok()?;
        }
    }
    Some(Search::from_specs(specs))
}
