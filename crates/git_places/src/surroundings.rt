//! What git heeds besides the files: the current directory and the variables of the environment.
use gitbase_core::{Bytes, PathText};
use std::marker::Model;

/// What git heeds besides the files, read once and before them. A variable that is not set is none;
/// one that is set to nothing is an empty text. Contracts see a record of these.
#[derive(Debug, Drop)]
pub struct Surroundings {
    /// The current directory: an absolute path without links.
    pub directory: PathText,
    /// `HOME`.
    pub home: Option<Bytes>,
    /// `XDG_CONFIG_HOME`.
    pub config_home: Option<Bytes>,
    /// `GIT_CONFIG_GLOBAL`.
    pub config_global: Option<Bytes>,
    /// `GIT_CONFIG_SYSTEM`.
    pub config_system: Option<Bytes>,
    /// `GIT_CONFIG_NOSYSTEM`.
    pub no_system: Option<Bytes>,
    /// `GIT_CEILING_DIRECTORIES`.
    pub ceilings: Option<Bytes>,
    /// `GIT_DISCOVERY_ACROSS_FILESYSTEM`.
    pub across: Option<Bytes>,
    /// `SUDO_UID`.
    pub sudo_user: Option<Bytes>,
    /// The name of the first variable that points git elsewhere, if one is set. No answer is given
    /// then.
    pub elsewhere: Option<Bytes>,
}

impl Model for Surroundings {
    ghost use Rattle.git_places.specs.Surroundings as words;

    ghost Value = { words.Surroundings };

    ghost view = { λ around. record { directory = around.directory; home = around.home; config_home = around.config_home; config_global = around.config_global; config_system = around.config_system; no_system = around.no_system; ceilings = around.ceilings; across = around.across; sudo_user = around.sudo_user; elsewhere = around.elsewhere } };
}
