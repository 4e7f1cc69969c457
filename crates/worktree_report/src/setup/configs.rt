//! The configurations that a setup names.
ghost use Rattle.std.specs.Prelude.{◌≡◌};

use git_config_lite::Source;
use gitbase_core::PathText;
use std::marker::Model;

/// Configurations in the order in which they are read: what each belongs to, and the path of its
/// file.
///
/// Contracts see the list of the pairs.
#[derive(Debug, Drop)]
pub struct Configs {
    items: Vec<(Source, PathText)>,
}

impl Model for Configs {
    ghost use Rattle.std.specs.Prelude.{List};
    ghost use Rattle.worktree_report.specs.ConfigFiles.{ConfigFile};

    ghost Value = { List ConfigFile };

    ghost view = { λ configs. configs.items.items };
}

impl Configs {
    /// The configurations of the vector; takes no memory.
    pub fn from_vec(items: Vec<(Source, PathText)>) -> Configs
        ensures { result ≡ items.items }
    {
        Configs { items }
    }

    /// The configurations.
    pub fn as_slice(&self) -> &[(Source, PathText)]
        ensures { result.now ≡ self.now }
    {
        &self.items
    }

    /// The configurations as a vector; takes no memory.
    pub fn into_vec(self) -> Vec<(Source, PathText)>
        ensures { result.items ≡ self }
    {
        self.items
    }
}
