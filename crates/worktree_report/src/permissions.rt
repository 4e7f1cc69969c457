//! What may be read beside the worktree; after `gix::open::Permissions` of gitoxide.
ghost use Rattle.std.specs.Prelude.{◌≡◌};
ghost use Rattle.worktree_report.specs.Permissions.{all_config, isolated_config, all_attributes, isolated_attributes, all_environment, isolated_environment, all_permissions, isolated_permissions, admits};

use git_config_lite as config;

/// What may be done with a resource; after `gix_sec::Permission` of gitoxide.
#[derive(Clone, Copy, Debug, PartialEq, Eq, PartialOrd, Ord, Hash)]
pub enum Permission {
    /// It is an error to come across it.
    Forbid,
    /// It is passed over.
    Deny,
    /// It is used.
    Allow,
}

/// How far a repository is trusted; after `gix_sec::Trust` of gitoxide.
#[derive(Clone, Copy, Debug, PartialEq, Eq, PartialOrd, Ord, Hash)]
pub enum Trust {
    /// It belongs to somebody else.
    Reduced,
    /// It belongs to the user.
    Full,
}

/// Which configurations may be read besides that of the repository; after
/// `gix::open::permissions::Config` of gitoxide.
#[derive(Clone, Copy, Debug, PartialEq, Eq, PartialOrd, Ord, Hash)]
pub struct Config {
    /// That of git's installation, which git itself would have to be asked for.
    pub git_binary: bool,
    /// That of the machine.
    pub system: bool,
    /// That of the user, under git's own directory of configurations.
    pub git: bool,
    /// That of the user.
    pub user: bool,
    /// What variables of the environment say.
    pub env: bool,
    /// Files that a configuration includes. None is read here, whatever this says.
    pub includes: bool,
}

impl Config {
    /// All but that of git's installation.
    pub fn all() -> Config
        ensures { result ≡ all_config }
    {
        Config {
            git_binary: false,
            system: true,
            git: true,
            user: true,
            env: true,
            includes: true,
        }
    }

    /// None but that of the repository.
    pub fn isolated() -> Config
        ensures { result ≡ isolated_config }
    {
        Config {
            git_binary: false,
            system: false,
            git: false,
            user: false,
            env: false,
            includes: false,
        }
    }
}

impl Default for Config {
    fn default() -> Config
        ensures { result ≡ all_config }
    {
        Config::all()
    }
}

/// Which files of attributes may be read besides those of the repository; after
/// `gix::open::permissions::Attributes` of gitoxide.
#[derive(Clone, Copy, Debug, PartialEq, Eq, PartialOrd, Ord, Hash)]
pub struct Attributes {
    /// That of git's installation, which git itself would have to be asked for.
    pub git_binary: bool,
    /// That of the machine.
    pub system: bool,
    /// That of the user, under git's own directory of configurations.
    pub git: bool,
}

impl Attributes {
    /// All but that of git's installation.
    pub fn all() -> Attributes
        ensures { result ≡ all_attributes }
    {
        Attributes {
            git_binary: false,
            system: true,
            git: true,
        }
    }

    /// None but those of the repository.
    pub fn isolated() -> Attributes
        ensures { result ≡ isolated_attributes }
    {
        Attributes {
            git_binary: false,
            system: false,
            git: false,
        }
    }
}

impl Default for Attributes {
    fn default() -> Attributes
        ensures { result ≡ all_attributes }
    {
        Attributes::all()
    }
}

/// What may be done with variables of the environment; after `gix::open::permissions::Environment`
/// of gitoxide. None is read here, whatever this says.
#[derive(Clone, Copy, Debug, PartialEq, Eq)]
pub struct Environment {
    /// `XDG_CONFIG_HOME`, which says where the configurations of the user are.
    pub xdg_config_home: Permission,
    /// `HOME`, the directory of the user.
    pub home: Permission,
    /// Those that say how HTTP is spoken.
    pub http_transport: Permission,
    /// Those that say who an author or a committer is.
    pub identity: Permission,
    /// Those that say where objects are.
    pub objects: Permission,
    /// All others that begin with `GIT_`.
    pub git_prefix: Permission,
    /// Those that begin with `SSH_`.
    pub ssh_prefix: Permission,
}

impl Environment {
    /// All are used.
    pub fn all() -> Environment
        ensures { result ≡ all_environment }
    {
        Environment {
            xdg_config_home: Permission::Allow,
            home: Permission::Allow,
            http_transport: Permission::Allow,
            identity: Permission::Allow,
            objects: Permission::Allow,
            git_prefix: Permission::Allow,
            ssh_prefix: Permission::Allow,
        }
    }

    /// All are passed over.
    pub fn isolated() -> Environment
        ensures { result ≡ isolated_environment }
    {
        Environment {
            xdg_config_home: Permission::Deny,
            home: Permission::Deny,
            http_transport: Permission::Deny,
            identity: Permission::Deny,
            objects: Permission::Deny,
            git_prefix: Permission::Deny,
            ssh_prefix: Permission::Deny,
        }
    }
}

/// What may be read beside the worktree; after `gix::open::Permissions` of gitoxide.
///
/// See docs/DECISIONS.md#unused-permissions.
#[derive(Clone, Copy, Debug, PartialEq, Eq)]
pub struct Permissions {
    /// Variables of the environment.
    pub env: Environment,
    /// Configurations.
    pub config: Config,
    /// Files of attributes.
    pub attributes: Attributes,
}

impl Permissions {
    /// All that each part has.
    pub fn all() -> Permissions
        ensures { result ≡ all_permissions }
    {
        Permissions {
            env: Environment::all(),
            config: Config::all(),
            attributes: Attributes::all(),
        }
    }

    /// Nothing from outside the repository.
    pub fn isolated() -> Permissions
        ensures { result ≡ isolated_permissions }
    {
        Permissions {
            env: Environment::isolated(),
            config: Config::isolated(),
            attributes: Attributes::isolated(),
        }
    }

    /// What is safe in a repository of anybody. This is all, since nothing that is read is run.
    pub fn secure() -> Permissions
        ensures { result ≡ all_permissions }
    {
        Permissions::all()
    }

    /// What is allowed in a repository that is trusted so far: all, at either level.
    pub fn default_for_level(level: Trust) -> Permissions
        ensures { result ≡ all_permissions }
    {
        match level {
            Trust::Full => Permissions::all(),
            Trust::Reduced => Permissions::secure(),
        }
    }

    /// Whether a configuration may be read, by what it belongs to. That of the repository and what
    /// the calling program gives always may, and `.gitmodules` never, as it is no configuration.
    pub fn admits(&self, source: config::Source) -> bool
        ensures { result ≡ admits self.now source }
    {
        match source {
            config::Source::GitInstallation => self.config.git_binary,
            config::Source::System => self.config.system,
            config::Source::Git => self.config.git,
            config::Source::User => self.config.user,
            config::Source::Local => true,
            config::Source::Env => self.config.env,
            config::Source::Api => true,
            config::Source::Modules => false,
        }
    }
}

impl Default for Permissions {
    fn default() -> Permissions
        ensures { result ≡ all_permissions }
    {
        Permissions::secure()
    }
}
