//! What is said of a submodule.
ghost use Rattle.std.specs.Prelude.{◌≡◌, ◌⊎◌, ℕ, List, Some, ◌∷◌, option_copied, IfOk, IfErr, IfSome, IsErrOf, IsTrue};
ghost use Rattle.git_config_lite.specs.Gives.{boolean_with_error_text};
ghost use Rattle.submodule.specs.Overrides as overrides;
ghost use Rattle.submodule.specs.Access as access;
ghost use Rattle.submodule.specs.Answers as answers;

use crate::branch::Branch;
use crate::fetch_recurse::FetchRecurse;
use crate::field::FieldError;
use crate::file::File;
use crate::ignore::Ignore;
use crate::update::Update;
use crate::url::Url;
use crate::{branch, field, path, update, url};
use git_config_lite::ValueError;
use std::alloc::Global;

/// Every value is the last one that there is for a name, overrides included, also for a name that
/// stands in an override alone. Names are compared by their bytes.
impl File {
    /// The last value of a key of a submodule.
    /// See docs/DECISIONS.md#last-value.
    fn value(&self, name: &[u8], key: &[u8]) -> Option<&[u8]>
        ensures { option_copied result ≡ overrides.value name.now key.now self.now.sections }
    {
        self.config().string(b"submodule", Some(name), key)
    }

    /// Where the submodule stands in the work tree: its `path`, as it is written.
    ///
    /// # Errors
    ///
    /// - `Missing` exactly where it is not set or empty.
    /// - `Absolute` exactly where it begins with a slash.
    /// - `OutsideOfWorktree` exactly where it leads out of the work tree otherwise.
    /// - `OutOfMemory` for want of memory.
    ///
    /// See docs/DECISIONS.md#values-unjudged.
    pub fn path(&self, alloc: Global, name: &[u8]) -> Result<&[u8], path::Error>
        ensures value { answers.PathResultAgrees result (access.path name.now self.now.sections) }
        ensures inside { IfOk result (λ path. IsTrue (access.is_valid_submodule_path path.now)) }
    {
        path::path_of_optional_value(alloc, name, self.value(name, b"path"))
    }

    /// Where the submodule is fetched from: the parts of its `url`.
    ///
    /// # Errors
    ///
    /// - `Missing` exactly where it is not set or empty.
    /// - `Parse` exactly where `Url::parse` refuses it, with its refusal.
    /// - `OutOfMemory` for want of memory.
    ///
    /// See docs/DIFFERENCES.md#module-dash.
    pub fn url(&self, alloc: Global, name: &[u8]) -> Result<Url, url::Error>
        ensures { answers.UrlFieldResultAgrees result (access.url name.now self.now.sections) }
    {
        url::url_of_optional_value(alloc, name, self.value(name, b"url"))
    }

    /// How the submodule is brought up to date: its `update`, if it is set. A command is given only
    /// if a configuration asks for it.
    ///
    /// # Errors
    ///
    /// - `Invalid` exactly where it is none of the words and no command.
    /// - `CommandForbiddenInModulesConfiguration` exactly where it is a command and stands in
    ///   `.gitmodules`.
    /// - `OutOfMemory` for want of memory.
    pub fn update(&self, alloc: Global, name: &[u8]) -> Result<Option<Update>, update::Error>
        ensures value { answers.UpdateFieldResultAgrees result (access.update name.now
            self.now.sections) }
        ensures command { IfOk result (λ update. IfSome update
            (access.IsAllowedUpdate (access.update_value_and_source name.now self.now.sections))) }
        ensures forbidden { IfErr result (access.IsForbiddenUpdateError
            (access.update_value_and_source name.now self.now.sections)) }
    {
        update::update_of_optional_value(
            alloc,
            name,
            self.config()
                .string_with_source(b"submodule", Some(name), b"update"),
        )
    }

    /// The branch that the submodule follows: its `branch`, if it is set.
    ///
    /// # Errors
    ///
    /// - `Refspec` exactly where `Branch::try_from` refuses it, with its refusal.
    /// - `OutOfMemory` for want of memory.
    pub fn branch(&self, alloc: Global, name: &[u8]) -> Result<Option<Branch>, branch::Error>
        ensures { answers.BranchFieldResultAgrees result (access.branch name.now
            self.now.sections) }
    {
        branch::branch_of_optional_value(alloc, name, self.value(name, b"branch"))
    }

    /// Whether a fetch goes on into the submodule: its `fetchRecurseSubmodules`, if it is set.
    ///
    /// # Errors
    ///
    /// - `Invalid` exactly where it is no boolean and not `on-demand`.
    /// - `OutOfMemory` for want of memory.
    pub fn fetch_recurse(
        &self,
        alloc: Global,
        name: &[u8],
    ) -> Result<Option<FetchRecurse>, FieldError>
        ensures { answers.FieldResultAgrees result (access.fetch_recurse name.now
            self.now.sections) }
    {
        let said = FetchRecurse::new(
            self.config()
                .boolean(b"submodule", Some(name), b"fetchRecurseSubmodules"),
        );
        field::fetch_recurse_or_field_error(alloc, name, said)
    }

    /// Which changes of the submodule a status leaves out: its `ignore`, if it is set.
    ///
    /// # Errors
    ///
    /// - `Invalid` exactly where it is none of the words.
    /// - `OutOfMemory` for want of memory.
    pub fn ignore(&self, alloc: Global, name: &[u8]) -> Result<Option<Ignore>, FieldError>
        ensures { answers.FieldResultAgrees result (access.ignore name.now self.now.sections) }
    {
        field::ignore_of_optional_value(alloc, name, self.value(name, b"ignore"))
    }

    /// Whether only the newest commit of the submodule is fetched: its `shallow`, if it is set. The
    /// error has the text of a value that is no boolean.
    pub fn shallow(&self, name: &[u8]) -> Result<Option<bool>, ValueError<'_>>
        ensures { boolean_with_error_text result ≡ access.shallow name.now self.now.sections }
    {
        self.config().boolean(b"submodule", Some(name), b"shallow")
    }
}
