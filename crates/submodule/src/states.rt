//! The names of submodules, and whether they are active.
ghost use Rattle.std.specs.Prelude.{◌≡◌};
ghost use Rattle.std.specs.Iterator.{YieldsFirstBy, item_count};
ghost use Rattle.submodule.specs.Active as active;
ghost use Rattle.submodule.specs.ActiveSeen.{name_and_active_of_references};

use crate::is_active_platform::IsActivePlatform;
use crate::names::Names;
use git_config_lite as config;
use git_config_lite::ValueError;
use std::marker::Model;

/// Names of submodules, and whether each is active, in their order.
///
/// Contracts see the list of those that are left.
#[derive(Drop)]
pub struct NamesAndActive<'a> {
    names: Names<'a>,
    platform: IsActivePlatform,
    config: &'a config::File,
}

impl<'a> Model for NamesAndActive<'a> {
    ghost use Rattle.std.specs.Prelude.{List};
    ghost use Rattle.submodule.specs.Active.{NameAndActive, names_with_activity};

    ghost Value = { List NameAndActive };

    ghost view = { λ left. names_with_activity left.platform left.config.now.sections left.names };
}

impl<'a> NamesAndActive<'a> {
    pub(crate) fn new(
        names: Names<'a>,
        platform: IsActivePlatform,
        config: &'a config::File,
    ) -> NamesAndActive<'a>
        ensures { result ≡ active.names_with_activity platform config.now.sections names.entry }
    {
        NamesAndActive {
            names,
            platform,
            config,
        }
    }
}

impl<'a> Iterator for NamesAndActive<'a> {
    type Item = (&'a [u8], Result<bool, ValueError<'a>>);

    ghost next_gives = { YieldsFirstBy name_and_active_of_references (λ left. left) };

    ghost remaining = { item_count (λ left. left) };

    fn next(&mut self) -> Option<(&'a [u8], Result<bool, ValueError<'a>>)> {
        let name = self.names.next()?;
        let answer = self.platform.is_active(self.config, name);
        Some((name, answer))
    }
}
