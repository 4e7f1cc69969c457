//! Configuration files, and what each of them belongs to.
ghost use Rattle.std.specs.Prelude.{◌≡◌, [], ◌∷◌, ◌++◌, OnErr, OnOk};

use git_config_lite::Source;
use gitbase_core::{OutOfMemory, PathText};
use std::alloc::Global;
use std::marker::Model;

/// A configuration file: what it belongs to, and its path. Contracts see a record of both.
#[derive(Debug, Drop)]
pub struct Configured {
    pub source: Source,
    /// An absolute path.
    pub path: PathText,
}

impl Model for Configured {
    ghost use Rattle.git_config_files.specs.Files as words;

    ghost Value = { words.ConfiguredFile };

    ghost view = { λ file. record { source = file.source; path = file.path } };
}

/// Configuration files in their order. Contracts see the list of them.
#[derive(Debug, Drop)]
pub struct ConfigFiles {
    items: Vec<Configured>,
}

impl Model for ConfigFiles {
    ghost use Rattle.std.specs.Prelude.{List};
    ghost use Rattle.git_config_files.specs.Files as words;

    ghost Value = { List words.ConfiguredFile };

    ghost view = { λ files. files.items.items };
}

impl ConfigFiles {
    /// No files; takes no memory.
    pub fn new(alloc: Global) -> ConfigFiles
        ensures { result ≡ [] }
    {
        ConfigFiles {
            items: Vec::new(alloc),
        }
    }

    /// The files.
    pub fn as_slice(&self) -> &[Configured]
        ensures { result.now ≡ self.now }
    {
        &self.items
    }

    /// The files as a vector; takes no memory.
    pub fn into_vec(self) -> Vec<Configured>
        ensures { result.items ≡ self }
    {
        self.items
    }

    /// Adds a file at the end.
    ///
    /// # Errors
    ///
    /// `OutOfMemory` for want of memory; then the files are what they were.
    pub fn push(&mut self, file: Configured) -> Result<(), OutOfMemory>
        ensures more { OnOk result (self.new ≡ self.old ++ file ∷ []) }
        ensures refused { OnErr result (self.new ≡ self.old) }
    {
        self.items.push(file)?;
        Ok(())
    }
}
