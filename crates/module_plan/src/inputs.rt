//! What a plan is made from.
use git_config_lite as config;

/// The root of a work tree, what is known of its submodules, and the configuration that says which
/// are active.
#[derive(Drop)]
pub struct Asking<'a> {
    pub root: &'a [u8],
    pub modules: &'a submodule::File,
    pub config: &'a config::File,
}
