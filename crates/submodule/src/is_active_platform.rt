//! Which submodules are active.
ghost use Rattle.std.specs.Prelude.{◌≡◌, [], Ok, MatchResult};
ghost use Rattle.glob_rules.specs.PathSpecText as texts;
ghost use Rattle.submodule.specs.Active as active;
ghost use Rattle.submodule.specs.ActiveSeen as seen;

use git_config_lite as config;
use git_config_lite::ValueError;
use gitbase_core::OutOfMemory;
use glob_rules::pathspec;
use glob_rules::pathspec::{Defaults, Matcher, Search, Spec};
use std::alloc::{AllocFailed, Global};
use std::marker::Model;

/// Why the values of `submodule.active` are refused.
#[derive(Clone, Copy, Debug, PartialEq, Eq, thiserror::Error)]
pub enum Error {
    /// A value is no path spec.
    #[error("ParsePattern")]
    ParsePattern {
        /// Which value, counted from 1.
        value: usize,
        /// How many of its bytes stand before the fault.
        at: usize,
    },
    /// The path of a value's spec begins with a slash, or leads out of the top.
    #[error("NormalizePattern")]
    NormalizePattern {
        /// Which value, counted from 1.
        value: usize,
    },
    /// Want of memory.
    #[error("OutOfMemory")]
    OutOfMemory,
}

impl<T: Drop> From<AllocFailed<T>> for Error {
    ghost use Rattle.std.specs.Prelude.{◌≡◌};
    ghost use Rattle.submodule.specs.declared.is_active_platform.Error.TheVariants as errors;

    ghost from_gives = { λ _ e. e ≡ errors.OutOfMemory };

    fn from(_refused: AllocFailed<T>) -> Error {
        Error::OutOfMemory
    }
}

/// The specs of `submodule.active`, if there are any.
///
/// Contracts see their list, if there is one.
#[derive(Drop)]
pub struct IsActivePlatform {
    search: Option<Search>,
}

impl Model for IsActivePlatform {
    ghost use Rattle.std.specs.Prelude.{Option, List};
    ghost use Rattle.glob_rules.specs.PathSpec.{PathSpec};

    ghost Value = { Option (List PathSpec) };

    ghost view = { λ platform. platform.search };
}

/// The spec of a value of `submodule.active`, of which this is the number.
fn parse_numbered_active_spec(
    alloc: Global,
    number: usize,
    text: &[u8],
    defaults: Defaults,
) -> Result<Spec, Error>
    ensures { seen.SpecResultAgrees number result (texts.parse_path_spec defaults.ignore_case
        text.now) }
{
    match Spec::parse(alloc, text, defaults) {
        Ok(spec) => Ok(spec),
        Err(pathspec::Error::Parse { at }) => Err(Error::ParsePattern { value: number, at }),
        Err(pathspec::Error::Normalize) => Err(Error::NormalizePattern { value: number }),
        Err(pathspec::Error::OutOfMemory) => Err(Error::OutOfMemory),
    }
}

/// The specs of a configuration.
/// See docs/DECISIONS.md#active-checked-whole.
/// See docs/DIFFERENCES.md#gix-active-order.
fn active_specs_of_config(
    alloc: Global,
    config: &config::File,
    defaults: Defaults,
) -> Result<Vec<Spec>, Error>
    ensures { let values = active.submodule_active_values config.now.sections in
        let given = active.parse_active_specs_after defaults.ignore_case [] values in
        MatchResult result (λ specs. given ≡ Ok specs.items) (λ e. seen.ErrorAgreesUnlessOutOfMemory
        e given) }
{
    let mut specs = Vec::new(alloc);
    for text in config.strings(b"submodule", None, b"active") {
        let spec = parse_numbered_active_spec(alloc, specs.len() + 1, text, defaults)?;
        specs.push(spec)?;
    }
    Ok(specs)
}

impl IsActivePlatform {
    /// The specs of `submodule.active`, if that has values.
    fn from_specs(specs: Vec<Spec>) -> IsActivePlatform
        ensures { result ≡ active.specs_unless_empty specs.items }
    {
        if specs.is_empty() {
            return IsActivePlatform { search: None };
        }
        IsActivePlatform {
            search: Some(Search::from_specs(specs)),
        }
    }

    /// The specs of a configuration.
    pub(crate) fn new(
        alloc: Global,
        config: &config::File,
        defaults: Defaults,
    ) -> Result<IsActivePlatform, Error>
        ensures { seen.ActiveResultAgrees result
            (active.active_specs_or_error_of_config defaults.ignore_case config.now.sections) }
    {
        let specs = active_specs_of_config(alloc, config, defaults)?;
        Ok(IsActivePlatform::from_specs(specs))
    }

    /// Whether a submodule is active if its own value says nothing.
    /// See docs/DIFFERENCES.md#module-active-by-name.
    fn is_active_by_specs_or_url(&self, config: &config::File, name: &[u8]) -> bool
        ensures { result ≡ active.is_active_by_specs_or_url self.now name.now config.now.sections }
    {
        match &self.search {
            Some(search) => is_matched_and_not_excluded(search.pattern_matching_relative_path(
                name,
                Some(true),
            )),
            None => config.string(b"submodule", Some(name), b"url").is_some(),
        }
    }

    /// Whether the submodule of a name is active: the rule of gitsubmodules(7) under "Active
    /// submodules", for the name in place of the path.
    ///
    /// `submodule.NAME.active` of the configuration decides, if it is set; the error has its text
    /// where it is no boolean. Else, where `submodule.active` has values, they decide: the
    /// submodule is active if the name, as that of a directory, is matched and not excluded. Else
    /// it is active if the configuration has a `submodule.NAME.url`.
    ///
    /// See docs/DIFFERENCES.md#module-url-without-value.
    pub fn is_active<'c>(
        &mut self,
        config: &'c config::File,
        name: &[u8],
    ) -> Result<bool, ValueError<'c>>
        ensures answer { seen.active_result_with_error_text result
            ≡ active.is_active self.old config.now.sections name.now }
        ensures same { self.new ≡ self.old }
    {
        match config.boolean(b"submodule", Some(name), b"active") {
            Ok(Some(answer)) => Ok(answer),
            Ok(None) => Ok(self.is_active_by_specs_or_url(config, name)),
            Err(error) => Err(error),
        }
    }
}

/// Whether a name is matched and not excluded.
fn is_matched_and_not_excluded(found: Option<pathspec::Match>) -> bool
    ensures { result ≡ active.is_matched_and_not_excluded found }
{
    match found {
        Some(found) => !found.is_excluded(),
        None => false,
    }
}
