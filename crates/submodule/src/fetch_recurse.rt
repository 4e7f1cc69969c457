//! Whether a fetch goes on into a submodule.
ghost use Rattle.std.specs.Prelude.{◌≡◌};
ghost use Rattle.git_config_lite.specs.Gives.{boolean_with_error_text};
ghost use Rattle.submodule.specs.Recursions as recursions;

use git_config_lite::ValueError;

/// Whether a fetch goes on into a submodule, as `submodule.NAME.fetchRecurseSubmodules` of
/// gitmodules(5).
#[derive(Clone, Copy, Debug, Default, PartialEq, Eq, PartialOrd, Ord, Hash)]
pub enum FetchRecurse {
    /// Where its commit changed.
    #[default]
    OnDemand,
    /// Always.
    Always,
    /// Never.
    Never,
}

impl FetchRecurse {
    /// What a value says, by what it is as a boolean: true is `Always` and false `Never`, and the
    /// text `on-demand`, byte for byte, is `OnDemand`. No value says nothing, and any other text is
    /// the error.
    pub fn new<'a>(
        boolean: Result<Option<bool>, ValueError<'a>>,
    ) -> Result<Option<FetchRecurse>, &'a [u8]>
        ensures { recursions.fetch_recurse_result_of_reference result
            ≡ recursions.fetch_recurse_of_boolean_or_text (boolean_with_error_text boolean.entry) }
    {
        match boolean {
            Ok(None) => Ok(None),
            Ok(Some(true)) => Ok(Some(FetchRecurse::Always)),
            Ok(Some(false)) => Ok(Some(FetchRecurse::Never)),
            Err(error) => {
                if error.input == b"on-demand".as_slice() {
                    Ok(Some(FetchRecurse::OnDemand))
                } else {
                    Err(error.input)
                }
            }
        }
    }
}
