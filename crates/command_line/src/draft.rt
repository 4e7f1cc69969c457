//! What the options of a command say together.
ghost use Rattle.std.specs.Prelude.{◌≡◌, Option};
ghost use Rattle.command_line.specs.Drafts as drafts;

use crate::change_words::{
    ChangeWords, deleted_modified_flags_with_choice, no_deleted_modified_flags,
};
use crate::check_options::{
    CheckAsked, CheckChoice, check_request_with_choice, default_check_ignore_request,
};
use crate::choice::Choice;
use crate::clean_options::{CleanChoice, Force};
use crate::compare_options::{
    CompareChoice, Comparing, default_diff_files_request, diff_files_request_with_choice,
};
use crate::form::{Color, Form, LineEnd, Wording};
use crate::opt::Switch;
use clean_plan::{Finding, What};
use dir_classify::{CollapsedEntriesEmissionMode, EmissionMode, ForDeletionMode};
use git_clean::Cleaning;
use ls_files::Listing;
use worktree_report::{Permissions, SetupOptions, Strategy};
use worktree_stack::ignore_source;

/// How many components a directory that is entered may have, where no option says that.
const DEPTH: usize = 256;

/// What the options so far say, those that no word gave at their defaults.
#[derive(Clone, Copy, Debug)]
pub struct Draft {
    /// The options of the report.
    pub options: SetupOptions,
    /// What may be removed.
    pub what: What,
    /// How repositories are looked for.
    pub finding: Finding,
    /// How many components a directory that is entered may have.
    pub depth: usize,
    /// How the answer is written.
    pub form: Form,
    /// What is listed.
    pub listing: Listing,
    /// What is listed by what stands in the work tree.
    pub changes: ChangeWords,
    /// What is asked of `clean`.
    pub cleaning: Cleaning,
    /// What is asked of `diff-files`.
    pub comparing: Comparing,
    /// What is asked of `check-ignore`.
    pub checking: CheckAsked,
    /// How often it is to go by force.
    pub force: Force,
    /// Whether the stat fields of files tell what changed, and not their bytes.
    pub by_stat: bool,
    /// Whether the help text is asked for.
    pub is_help: bool,
}

/// The options of a report where no word says any.
fn default_report_options() -> SetupOptions
    ensures { result ≡ drafts.default_report_options }
{
    SetupOptions {
        ignore_case: false,
        recurse_repositories: false,
        emit_pruned: false,
        emit_tracked: false,
        emit_untracked: EmissionMode::Matching,
        emit_ignored: None,
        emit_collapsed: None,
        emit_empty_directories: false,
        for_deletion: None,
        classify_untracked_bare_repositories: false,
        symlinks_to_directories_are_ignored_like_directories: false,
        excludes: true,
        precious: false,
        strict_parents: true,
        origins: false,
        print_outcome: false,
        submodules: false,
        ignore_source: ignore_source::Source::WorktreeThenIdMappingIfNotSkipped,
        permissions: Permissions::secure(),
        strategy: Strategy::Held,
    }
}

/// The listing where no word says any.
fn default_ls_files_options() -> Listing
    ensures { result ≡ drafts.default_ls_files_options }
{
    Listing {
        cached: false,
        stages: false,
        unmerged: false,
        others: false,
        killed: false,
        ignored: false,
        directories: false,
        empty_directories: true,
        excludes_standard: false,
        excludes_directories: false,
        patterns: false,
        error_unmatch: false,
        tags: false,
        valid: false,
        ends_in_nul: false,
        deduplicates: false,
        full_names: false,
        quote_path: true,
    }
}

/// What is asked of `clean` where no word says anything.
fn default_clean_request() -> Cleaning
    ensures { result ≡ drafts.default_clean_request }
{
    Cleaning {
        dry_run: false,
        directories: false,
        ignored_too: false,
        ignored_only: false,
        patterns: false,
        repositories: false,
        quiet: false,
        quote_path: true,
    }
}

/// What no words say.
pub fn default_draft() -> Draft
    ensures { result ≡ drafts.default_draft }
{
    Draft {
        options: default_report_options(),
        what: What::Untracked,
        finding: Finding::All,
        depth: DEPTH,
        form: Form {
            wording: Wording::Words,
            end: LineEnd::Feed,
            color: Color::Auto,
        },
        listing: default_ls_files_options(),
        changes: no_deleted_modified_flags(),
        cleaning: default_clean_request(),
        comparing: default_diff_files_request(),
        checking: default_check_ignore_request(),
        force: Force::Unsaid,
        by_stat: false,
        is_help: false,
    }
}

/// The options with one of what is reported turned on or off; all others of it stay.
fn with_switch_turned(options: SetupOptions, switch: Switch, on: bool) -> SetupOptions
    ensures { result ≡ drafts.with_switch_turned switch on options }
{
    let mut options = options;
    match switch {
        Switch::Tracked => options.emit_tracked = on,
        Switch::Pruned => options.emit_pruned = on,
        Switch::EmptyDirectories => options.emit_empty_directories = on,
        Switch::Origins => options.origins = on,
        Switch::Submodules => options.submodules = on,
        Switch::Outcome => options.print_outcome = on,
        Switch::Excludes => options.excludes = on,
        Switch::Precious => options.precious = on,
        Switch::StrictParents => options.strict_parents = on,
        Switch::RecurseRepositories => options.recurse_repositories = on,
        Switch::BareRepositories => options.classify_untracked_bare_repositories = on,
        Switch::LinksAsDirectories => {
            options.symlinks_to_directories_are_ignored_like_directories = on
        }
    }
    options
}

/// The listing with one choice made or dropped; all others stay.
fn ls_files_options_with_choice(listing: Listing, choice: Choice, on: bool) -> Listing
    ensures { result ≡ drafts.ls_files_options_with_choice choice on listing }
{
    let mut listing = listing;
    match choice {
        Choice::Cached => listing.cached = on,
        Choice::Stages => listing.stages = on,
        Choice::Unmerged => listing.unmerged = on,
        Choice::Others => listing.others = on,
        Choice::Killed => listing.killed = on,
        Choice::Deleted => {}
        Choice::Modified => {}
        Choice::Ignored => listing.ignored = on,
        Choice::Directories => listing.directories = on,
        Choice::EmptyDirectories => listing.empty_directories = on,
        Choice::ExcludesStandard => listing.excludes_standard = on,
        Choice::ExcludesDirectories => listing.excludes_directories = on,
        Choice::ErrorUnmatch => listing.error_unmatch = on,
        Choice::Tags => listing.tags = on,
        Choice::Valid => listing.valid = on,
        Choice::Nul => listing.ends_in_nul = on,
        Choice::Deduplicates => listing.deduplicates = on,
        Choice::FullNames => listing.full_names = on,
    }
    listing
}

/// What is asked of `clean` with one choice made or dropped; all others stay.
fn clean_request_with_choice(cleaning: Cleaning, choice: CleanChoice, on: bool) -> Cleaning
    ensures { result ≡ drafts.clean_request_with_choice choice on cleaning }
{
    let mut cleaning = cleaning;
    match choice {
        CleanChoice::DryRun => cleaning.dry_run = on,
        CleanChoice::Directories => cleaning.directories = on,
        CleanChoice::IgnoredToo => cleaning.ignored_too = on,
        CleanChoice::IgnoredAlone => cleaning.ignored_only = on,
        CleanChoice::Quiet => cleaning.quiet = on,
    }
    cleaning
}

/// The configurations that may be read.
fn permissions_isolated_or_all(is_isolated: bool) -> Permissions
    ensures { result ≡ drafts.permissions_isolated_or_all is_isolated }
{
    if is_isolated {
        Permissions::isolated()
    } else {
        Permissions::all()
    }
}

impl Draft {
    /// The draft with other options of the report.
    fn with_setup_options(self, options: SetupOptions) -> Draft
        ensures { result ≡ drafts.with_setup_options options self }
    {
        let mut draft = self;
        draft.options = options;
        draft
    }

    /// The draft with another form of the answer.
    fn with_output_form(self, form: Form) -> Draft
        ensures { result ≡ drafts.with_output_form form self }
    {
        let mut draft = self;
        draft.form = form;
        draft
    }

    /// One of what is reported is turned on or off.
    pub fn with_report_switch(self, switch: Switch, on: bool) -> Draft
        ensures { result ≡ drafts.with_report_switch switch on self }
    {
        self.with_setup_options(with_switch_turned(self.options, switch, on))
    }

    /// Untracked paths are reported in this mode.
    pub fn with_untracked_emission_mode(self, mode: EmissionMode) -> Draft
        ensures { result ≡ drafts.with_untracked_emission_mode mode self }
    {
        let mut options = self.options;
        options.emit_untracked = mode;
        self.with_setup_options(options)
    }

    /// Ignored paths are reported in this mode, or not at all.
    pub fn with_ignored_emission_mode(self, mode: Option<EmissionMode>) -> Draft
        ensures { result ≡ drafts.with_ignored_emission_mode mode self }
    {
        let mut options = self.options;
        options.emit_ignored = mode;
        self.with_setup_options(options)
    }

    /// What a folded directory covers is reported in this mode, or not at all.
    pub fn with_collapsed_emission_mode(self, mode: Option<CollapsedEntriesEmissionMode>) -> Draft
        ensures { result ≡ drafts.with_collapsed_emission_mode mode self }
    {
        let mut options = self.options;
        options.emit_collapsed = mode;
        self.with_setup_options(options)
    }

    /// The walk looks in this mode for what must not be deleted, or not at all.
    pub fn with_for_deletion_mode(self, mode: Option<ForDeletionMode>) -> Draft
        ensures { result ≡ drafts.with_for_deletion_mode mode self }
    {
        let mut options = self.options;
        options.for_deletion = mode;
        self.with_setup_options(options)
    }

    /// The configurations of an isolated work tree are read, or all.
    pub fn with_config_permissions(self, is_isolated: bool) -> Draft
        ensures { result ≡ drafts.with_config_permissions is_isolated self }
    {
        let mut options = self.options;
        options.permissions = permissions_isolated_or_all(is_isolated);
        self.with_setup_options(options)
    }

    /// Subtrees are walked by this strategy.
    pub fn with_walk_strategy(self, strategy: Strategy) -> Draft
        ensures { result ≡ drafts.with_walk_strategy strategy self }
    {
        let mut options = self.options;
        options.strategy = strategy;
        self.with_setup_options(options)
    }

    /// Lines are written in words or in letters.
    pub fn with_line_wording(self, wording: Wording) -> Draft
        ensures { result ≡ drafts.with_line_wording wording self }
    {
        let mut form = self.form;
        form.wording = wording;
        self.with_output_form(form)
    }

    /// Lines end so.
    pub fn with_line_end(self, end: LineEnd) -> Draft
        ensures { result ≡ drafts.with_line_end end self }
    {
        let mut form = self.form;
        form.end = end;
        self.with_output_form(form)
    }

    /// Colours are used so.
    pub fn with_color_choice(self, color: Color) -> Draft
        ensures { result ≡ drafts.with_color_choice color self }
    {
        let mut form = self.form;
        form.color = color;
        self.with_output_form(form)
    }

    /// These paths may go.
    pub fn with_removal_scope(self, what: What) -> Draft
        ensures { result ≡ drafts.with_removal_scope what self }
    {
        let mut draft = self;
        draft.what = what;
        draft
    }

    /// Repositories are looked for so.
    pub fn with_repository_finding(self, finding: Finding) -> Draft
        ensures { result ≡ drafts.with_repository_finding finding self }
    {
        let mut draft = self;
        draft.finding = finding;
        draft
    }

    /// So many components may a directory have that is entered.
    pub fn with_walk_depth(self, depth: usize) -> Draft
        ensures { result ≡ drafts.with_walk_depth depth self }
    {
        let mut draft = self;
        draft.depth = depth;
        draft
    }

    /// One choice of `ls-files` is made or dropped.
    pub fn with_ls_files_choice(self, choice: Choice, on: bool) -> Draft
        ensures { result ≡ drafts.with_ls_files_choice choice on self }
    {
        let mut draft = self;
        draft.listing = ls_files_options_with_choice(draft.listing, choice, on);
        draft.changes = deleted_modified_flags_with_choice(draft.changes, choice, on);
        draft
    }

    /// One choice of `clean` is made or dropped.
    pub fn with_clean_choice(self, choice: CleanChoice, on: bool) -> Draft
        ensures { result ≡ drafts.with_clean_choice choice on self }
    {
        let mut draft = self;
        draft.cleaning = clean_request_with_choice(draft.cleaning, choice, on);
        draft
    }

    /// Force is asked for once more, or no more.
    pub fn with_force_added_or_dropped(self, on: bool) -> Draft
        ensures { result ≡ drafts.with_force_added_or_dropped on self }
    {
        let mut draft = self;
        draft.force = draft.force.with_force_or_no_force(on);
        draft
    }

    /// One choice of `diff-files` is made or dropped.
    pub fn with_diff_files_choice(self, choice: CompareChoice, on: bool) -> Draft
        ensures { result ≡ drafts.with_diff_files_choice choice on self }
    {
        let mut draft = self;
        draft.comparing = diff_files_request_with_choice(draft.comparing, choice, on);
        draft
    }

    /// One choice of `check-ignore` is made or dropped.
    pub fn with_check_ignore_choice(self, choice: CheckChoice, on: bool) -> Draft
        ensures { result ≡ drafts.with_check_ignore_choice choice on self }
    {
        let mut draft = self;
        draft.checking = check_request_with_choice(draft.checking, choice, on);
        draft
    }

    /// The stat fields of files tell what changed.
    pub fn with_stat_comparison(self) -> Draft
        ensures { result ≡ drafts.with_stat_comparison self }
    {
        let mut draft = self;
        draft.by_stat = true;
        draft
    }

    /// The help text is asked for.
    pub fn with_help_requested(self) -> Draft
        ensures { result ≡ drafts.with_help_requested self }
    {
        let mut draft = self;
        draft.is_help = true;
        draft
    }
}
