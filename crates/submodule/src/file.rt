//! What is known of submodules: `.gitmodules`, and the configuration that overrides it.
ghost use Rattle.std.specs.Prelude.{◌≡◌, bytes_eq, option_copied, OnOk, OnErr, IfOk};
ghost use Rattle.std.specs.List.{IsDistinct};
ghost use Rattle.submodule.specs.Names.{submodule_names_of_gitmodules};
ghost use Rattle.submodule.specs.Overrides as overrides;
ghost use Rattle.submodule.specs.Access as access;
ghost use Rattle.submodule.specs.Answers as answers;
ghost use Rattle.submodule.specs.Active as active;
ghost use Rattle.submodule.specs.ActiveSeen.{ActiveResultAgrees};

use crate::is_active_platform::IsActivePlatform;
use crate::names::{Names, submodule_names_of_gitmodules};
use crate::overrides::override_config_of_all_submodules;
use crate::path::is_value_this_valid_path;
use crate::path_table::PathTable;
use crate::states::NamesAndActive;
use crate::{init, is_active_platform};
use git_config_lite as config;
use git_config_lite::{Metadata, Source};
use gitbase_core::{Bytes, OutOfMemory, PathText};
use glob_rules::pathspec::Defaults;
use std::alloc::Global;
use std::marker::Model;

/// What is known of submodules: `.gitmodules`, and the configurations that override some of it.
///
/// Contracts see the sections of all of them, as those of one configuration.
#[derive(Drop)]
pub struct File {
    config: config::File,
    names: Vec<Bytes>,
    /// Of these names; none where memory for it was refused.
    table: Option<PathTable>,
}

impl Model for File {
    ghost use Rattle.std.specs.Prelude.{◌≡◌, IfSome};
    ghost use Rattle.git_config_lite.specs.Sections.{Configuration};
    ghost use Rattle.submodule.specs.Names.{submodule_names_of_gitmodules};
    ghost use Rattle.submodule.specs.NamedPaths.{IsSortedPathTable};

    ghost Value = { Configuration };

    ghost view = { λ file. file.config };

    ghost invariant = { λ file. (file.names.items ≡ submodule_names_of_gitmodules
        file.config.sections)
        × IfSome file.table (λ table. IsSortedPathTable table file.config.sections file.names.items) };
}

impl File {
    /// What the text of `.gitmodules` says, read from the file `path` if it is one, with the
    /// overrides of a configuration behind it.
    ///
    /// The values are not looked at before they are asked for.
    ///
    /// # Errors
    ///
    /// - `Parse` names the first line that is outside the grammar of configurations, counted from
    ///   1.
    /// - `OutOfMemory` for want of memory.
    pub fn from_bytes(
        alloc: Global,
        bytes: &[u8],
        path: Option<PathText>,
        config: &config::File,
    ) -> Result<File, init::Error>
        ensures { answers.FileResultAgrees result (overrides.parse_gitmodules_with_overrides path
            bytes.now config.now) }
    {
        let meta = Metadata {
            source: Source::Modules,
            path,
        };
        let modules = config::File::from_bytes(alloc, bytes, meta)?;
        Ok(File::from_modules_with_overrides(alloc, modules, config)?)
    }

    /// A file of `.gitmodules` with the overrides of a configuration behind it.
    fn from_modules_with_overrides(
        alloc: Global,
        modules: config::File,
        config: &config::File,
    ) -> Result<File, OutOfMemory>
        ensures { IfOk result (λ file. file ≡ overrides.modules_with_overrides_appended modules
            config.now) }
    {
        let names = submodule_names_of_gitmodules(alloc, &modules)?;
        let mut file = File {
            config: modules,
            names,
            table: None,
        };
        file.append_submodule_overrides(alloc, config)?;
        Ok(file)
    }

    /// Adds what a configuration says in place of `.gitmodules`, behind all that is there.
    ///
    /// For each name that has a value of `branch`, `fetchRecurseSubmodules`, `ignore`, `update` or
    /// `url` there, in the order of their bytes, this is one section with the last value of each of
    /// these keys; a key without value counts as the empty text. The section has the
    /// configuration's path and source, or `Api` where that is `Modules`. The file stays as it was
    /// where memory is refused.
    ///
    /// See docs/DIFFERENCES.md#gix-append-answer.
    pub fn append_submodule_overrides(
        &mut self,
        alloc: Global,
        config: &config::File,
    ) -> Result<(), OutOfMemory>
        ensures appended { OnOk result (self.new ≡ overrides.modules_with_overrides_appended
            self.old config.now) }
        ensures refused { OnErr result (self.new ≡ self.old) }
    {
        let overrides = override_config_of_all_submodules(alloc, config)?;
        self.table = None;
        self.config.append(alloc, overrides)?;
        self.table = PathTable::new(alloc, &self.config, &self.names).ok();
        Ok(())
    }

    /// All of it as one configuration; takes no memory.
    pub fn into_config(self) -> config::File
        ensures { result ≡ self }
    {
        let File {
            config,
            names: _names,
            table: _table,
        } = self;
        config
    }

    /// All of it as one configuration: the sections of `.gitmodules`, tagged as such, and the
    /// overrides behind them.
    pub fn config(&self) -> &config::File
        ensures { result.now ≡ self.now }
    {
        &self.config
    }

    /// The path of the first section that has one, an override of a configuration among them; none
    /// without such a section.
    pub fn config_path(&self) -> Option<&[u8]>
        ensures { option_copied result ≡ access.config_path self.now.sections }
    {
        for section in self.config.sections() {
            if let Some(path) = &section.meta().path {
                return Some(path.as_bytes());
            }
        }
        None
    }

    /// The names of the submodules: the subsections of the sections `submodule` of `.gitmodules`,
    /// each once, in the order in which they first come. A submodule that only the configuration
    /// names is none.
    pub fn names(&self) -> Names<'_>
        ensures names { result ≡ submodule_names_of_gitmodules self.now.sections }
        ensures distinct { IsDistinct bytes_eq result }
    {
        Names::new(&self.names)
    }

    /// The first name whose path, one that may be given, is this one byte for byte.
    /// See docs/DECISIONS.md#path-as-written.
    pub fn name_by_path(
        &self,
        alloc: Global,
        relative_path: &[u8],
    ) -> Result<Option<&[u8]>, OutOfMemory>
        ensures { IfOk result
            (λ name. option_copied name ≡ access.name_by_path relative_path.now self.now.sections) }
    {
        match &self.table {
            Some(table) => table.find_name_by_valid_path(
                alloc,
                relative_path,
                &self.config,
                &self.names,
            ),
            None => self.first_name_with_path(alloc, relative_path),
        }
    }

    /// The same, by going over the names.
    fn first_name_with_path(
        &self,
        alloc: Global,
        relative_path: &[u8],
    ) -> Result<Option<&[u8]>, OutOfMemory>
        ensures { IfOk result
            (λ name. option_copied name ≡ access.name_by_path relative_path.now self.now.sections) }
    {
        for name in self.names() {
            let value = self.config.string(b"submodule", Some(name), b"path");
            if is_value_this_valid_path(alloc, relative_path, value)? {
                return Ok(Some(name));
            }
        }
        Ok(None)
    }

    /// What decides which submodules are active by a configuration: the path specs of
    /// `submodule.active`. Letters fold in them if `defaults` says so.
    ///
    /// # Errors
    ///
    /// - `ParsePattern` exactly where `Spec::parse` refuses the first value that it refuses by
    ///   `Parse`: its number, counted from 1, and the place in it.
    /// - `NormalizePattern` exactly where it refuses that value by `Normalize`: its number, counted
    ///   from 1.
    /// - `OutOfMemory` for want of memory.
    ///
    /// See docs/DIFFERENCES.md#module-active-unread.
    pub fn is_active_platform(
        &self,
        alloc: Global,
        config: &config::File,
        defaults: Defaults,
    ) -> Result<IsActivePlatform, is_active_platform::Error>
        ensures { ActiveResultAgrees result (active.active_specs_or_error_of_config
            defaults.ignore_case config.now.sections) }
    {
        IsActivePlatform::new(alloc, config, defaults)
    }

    /// The names of the submodules in their order, each with whether it is active by a
    /// configuration, or with the text of its `submodule.NAME.active` where that is no boolean.
    ///
    /// # Errors
    ///
    /// Those of [`File::is_active_platform`], each exactly where it comes there.
    pub fn names_and_active_state<'a>(
        &'a self,
        alloc: Global,
        config: &'a config::File,
        defaults: Defaults,
    ) -> Result<NamesAndActive<'a>, is_active_platform::Error>
        ensures { ActiveResultAgrees result (active.submodules_with_activity defaults.ignore_case
            self.now.sections config.now.sections) }
    {
        let platform = IsActivePlatform::new(alloc, config, defaults)?;
        Ok(NamesAndActive::new(self.names(), platform, config))
    }
}
