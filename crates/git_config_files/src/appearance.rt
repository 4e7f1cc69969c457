//! The files in which keys stand, in the order in which they first appear.
ghost use Rattle.std.specs.Prelude.{◌≡◌, [], ◌∷◌, ◌++◌, Some, IfOk};
ghost use Rattle.git_config_files.specs.Stack as words;

use crate::config_files::{ConfigFiles, Configured};
use git_config_lite::{File, Metadata, Source};
use gitbase_core::{OutOfMemory, PathText};
use std::alloc::Global;
use std::collections::BTreeSet;
use std::marker::Model;

/// Files that were met, in the order in which they were. Contracts see the list of them.
#[derive(Drop)]
struct Met {
    files: ConfigFiles,
    /// Their paths, among which one is found without passing over all.
    paths: BTreeSet<PathText>,
}

impl Model for Met {
    ghost use Rattle.std.specs.Prelude.{List};
    ghost use Rattle.git_config_files.specs.Files as joint;
    ghost use Rattle.git_config_files.specs.Stack as words;

    ghost Value = { List joint.ConfiguredFile };

    ghost view = { λ met. met.files };

    ghost invariant = { λ met. words.ArePathsOfFiles met.paths.keys met.files };
}

/// Whether a path is that of one of the files: by one search.
fn is_path_among_files(met: &Met, path: &PathText) -> bool
    ensures { result ≡ words.is_path_of_some_file path.now met.now }
{
    met.paths.contains(path)
}

/// Files, with another one behind them.
fn files_with_new_file(
    alloc: Global,
    met: Met,
    source: Source,
    path: &PathText,
) -> Result<Met, OutOfMemory>
    ensures { IfOk result (λ more. more ≡ met ++ words.file_at_path source path.now ∷ []) }
{
    let Met {
        mut files,
        mut paths,
    } = met;
    paths.insert(PathText::from_bytes(alloc, path.as_bytes())?)?;
    let path = PathText::from_bytes(alloc, path.as_bytes())?;
    files.push(Configured { source, path })?;
    Ok(Met { files, paths })
}

/// Files, with the one in which a key stands, unless it is among them.
fn files_with_file_added_once(alloc: Global, met: Met, meta: &Metadata) -> Result<Met, OutOfMemory>
    ensures { IfOk result (λ more. more ≡ words.files_with_file_added_once met meta.now.source
        meta.now.path) }
{
    let Some(path) = &meta.path else {
        return Ok(met);
    };
    if is_path_among_files(&met, path) {
        return Ok(met);
    }
    files_with_new_file(alloc, met, meta.source, path)
}

/// The files in which keys stand, in the order in which they first appear. The time that it takes
/// grows with the number of keys and of files, and not with their product.
pub fn files_in_order_of_appearance(alloc: Global, file: &File) -> Result<ConfigFiles, OutOfMemory>
    ensures { IfOk result (λ files. files ≡ words.files_in_order_of_appearance []
        file.now.sections) }
{
    let mut met = Met {
        files: ConfigFiles::new(alloc),
        paths: BTreeSet::new(alloc),
    };
    for key in file.sections() {
        met = files_with_file_added_once(alloc, met, key.meta())?;
    }
    let Met {
        files,
        paths: _paths,
    } = met;
    Ok(files)
}
