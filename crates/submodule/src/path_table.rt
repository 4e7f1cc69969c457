//! Which submodules have a path, found without passing over all submodules.
ghost use Rattle.std.specs.Prelude.{◌≡◌, ◌++◌, not, codes, find, option_copied, None, IfOk, if◌then◌else◌};
ghost use Rattle.std.specs.List.{filter};
ghost use Rattle.std.specs.List.Sorted.{IsSortedBy};
ghost use Rattle.std.specs.Cmp.Lexicographic.{slice_cmp};
ghost use Rattle.std.specs.Ordering.{nat_cmp, is_lt};
ghost use Rattle.submodule.specs.NamedPaths as paths;
ghost use Rattle.submodule.specs.Access as access;
ghost use Rattle.submodule.specs.Overrides.{value};

use crate::named_path::NamedPath;
use crate::path::is_valid_submodule_path;
use git_config_lite as config;
use gitbase_core::{Bytes, OutOfMemory};
use std::alloc::Global;
use std::marker::Model;

/// The paths of submodules with their names, in the order of the paths.
///
/// Contracts see their list.
#[derive(Debug, Drop)]
pub struct PathTable {
    rows: Vec<NamedPath>,
}

impl Model for PathTable {
    ghost use Rattle.std.specs.Prelude.{List};
    ghost use Rattle.std.specs.List.Sorted.{IsSortedBy};
    ghost use Rattle.submodule.specs.declared.named_path.NamedPath as declared;
    ghost use Rattle.submodule.specs.NamedPaths.{is_row_path_before};

    ghost Value = { List declared.NamedPath };

    ghost view = { λ table. table.rows.items };

    ghost invariant = { λ table. IsSortedBy is_row_path_before table.rows.items };
}

/// Rows, and that of a name, if it says a path.
fn rows_with_named_path(
    alloc: Global,
    mut rows: Vec<NamedPath>,
    name: &[u8],
    path: Option<&[u8]>,
) -> Result<Vec<NamedPath>, OutOfMemory>
    ensures { IfOk result (λ more. more.items
        ≡ rows.items ++ paths.named_path_if_given name.now (option_copied path.entry)) }
{
    let Some(path) = path else {
        return Ok(rows);
    };
    rows.push(NamedPath {
        path: Bytes::from_slice(alloc, path)?,
        name: Bytes::from_slice(alloc, name)?,
    })?;
    Ok(rows)
}

/// The rows of names, in their order.
fn named_paths_of_submodules(
    alloc: Global,
    config: &config::File,
    names: &[Bytes],
) -> Result<Vec<NamedPath>, OutOfMemory>
    ensures { IfOk result (λ rows. rows.items ≡ paths.named_paths_of_submodules config.now.sections
        names.now) }
{
    let mut rows = Vec::new(alloc);
    for name in names {
        let name = name.as_bytes();
        let path = config.string(b"submodule", Some(name), b"path");
        rows = rows_with_named_path(alloc, rows, name, path)?;
    }
    Ok(rows)
}

/// Whether the path of a row is less than this one.
fn is_row_path_below(row: &NamedPath, path: &[u8]) -> bool
    ensures { result ≡ is_lt (slice_cmp nat_cmp row.now.path path.now) }
{
    row.path.as_bytes().cmp(&path).is_lt()
}

/// Whether the path of a row is not greater than this one.
fn is_row_path_at_most(row: &NamedPath, path: &[u8]) -> bool
    ensures { result ≡ not (is_lt (slice_cmp nat_cmp path.now row.now.path)) }
{
    !path.cmp(&row.path.as_bytes()).is_lt()
}

/// The rows of a path, which stand beside one another.
fn rows_with_path<'a>(rows: &'a [NamedPath], path: &[u8]) -> &'a [NamedPath]
    requires { IsSortedBy paths.is_row_path_before rows.now }
    ensures { result.now ≡ filter (paths.row_has_path path.now) rows.now }
{
    let start = rows.partition_point(|row| is_row_path_below(row, path));
    let (_, rest) = rows.split_at(start);
    let length = rest.partition_point(|row| is_row_path_at_most(row, path));
    let (run, _) = rest.split_at(length);
    run
}

/// The name of the first row.
fn name_of_first_row(rows: &[NamedPath]) -> Option<&[u8]>
    ensures { option_copied result ≡ paths.name_of_first_row rows.now }
{
    match rows {
        [row, ..] => Some(row.name.as_bytes()),
        [] => None,
    }
}

impl PathTable {
    /// The table of names; fails only where memory is refused.
    /// See docs/DECISIONS.md#slower-without-memory.
    pub fn new(
        alloc: Global,
        config: &config::File,
        names: &[Bytes],
    ) -> Result<PathTable, OutOfMemory>
        ensures { IfOk result (λ table. paths.IsSortedPathTable table config.now.sections
            names.now) }
    {
        let mut rows = named_paths_of_submodules(alloc, config, names)?;
        rows.sort_by(|a, b| a.path.as_bytes().cmp(b.path.as_bytes()))?;
        Ok(PathTable { rows })
    }

    /// The first of the names whose path is this one; the table is that of these names.
    /// See docs/DIFFERENCES.md#module-same-path.
    pub fn find_name_by_valid_path(
        &self,
        alloc: Global,
        path: &[u8],
        _config: &config::File,
        _names: &[Bytes],
    ) -> Result<Option<&[u8]>, OutOfMemory>
        requires { paths.IsSortedPathTable self.now _config.now.sections _names.now }
        ensures { IfOk result (λ name. option_copied name
            ≡ find (λ one. access.is_value_this_valid_path path.now (value one (codes "path")
            _config.now.sections)) _names.now) }
    {
        self.name_if_path_valid(alloc, path)
    }

    /// The first name of a path, if that may be one of a submodule.
    fn name_if_path_valid(&self, alloc: Global, path: &[u8]) -> Result<Option<&[u8]>, OutOfMemory>
        ensures { IfOk result (λ name. option_copied name
            ≡ (if access.is_valid_submodule_path path.now then paths.name_of_first_row
            (filter (paths.row_has_path path.now) self.now) else None)) }
    {
        if is_valid_submodule_path(alloc, path)? {
            Ok(self.first_name_of_path(path))
        } else {
            Ok(None)
        }
    }

    /// The first name of a path.
    fn first_name_of_path(&self, path: &[u8]) -> Option<&[u8]>
        ensures { option_copied result
            ≡ paths.name_of_first_row (filter (paths.row_has_path path.now) self.now) }
    {
        name_of_first_row(rows_with_path(&self.rows, path))
    }
}
