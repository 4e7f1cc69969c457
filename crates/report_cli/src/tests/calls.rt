//! Each call of the library once, where all goes well.
use git_config_lite::Source;
use gitbase_core::MemoryStore;
use std::alloc::Global;
use worktree_fs::{MemoryWorktree, NewNode, PlannedInterrupt};
use worktree_report::{
    Activity, Attributes, Config, Environment, Permission, Permissions, Report, ReportError, Setup,
    Trust, exit_status_of_report_error, load_modules, report_bytes, worktree_report,
};

/// A submodule `m` at `f`, and a configuration that says that it is active.
const FILES: &[(&[u8], NewNode<'static>)] = &[
    (
        b"/w/.gitmodules",
        NewNode::File(b"[submodule \"m\"]\npath = f\n"),
    ),
    (b"/w/f", NewNode::File(b"")),
    (b"/c", NewNode::File(b"[submodule \"m\"]\nactive\n")),
];

const SETUP: &[u8] =
    b"config local /c\nblob 0123456789012345678901234567890123456789 a\\0a\noption submodules yes\n";

const TEXT: &[u8] =
    b"untracked file - always - - -\t.gitmodules\nuntracked file - always - - active:m\tf\n";

fn tree(alloc: Global) -> Option<MemoryWorktree> {
    let mut tree = MemoryWorktree::new(alloc, false);
    for (path, node) in FILES {
        tree.add(alloc, path, *node).ok()?;
    }
    Some(tree)
}

/// Whether a setup has a configuration of this kind.
fn has_single_config_of_source(setup: &Setup, source: Source) -> bool {
    match setup.configs.as_slice() {
        [named] => named.0 == source && named.1.as_bytes() == b"/c".as_slice(),
        _ => false,
    }
}

/// Whether the setup text is read as it stands.
pub fn setup_text_parses_as_expected(alloc: Global) -> bool {
    match Setup::parse(alloc, SETUP) {
        Ok(setup) => has_single_config_of_source(&setup, Source::Local) && setup.options.submodules,
        Err(_) => false,
    }
}

/// Whether the files that tell of submodules give one, with this configuration.
pub fn loads_one_submodule(alloc: Global) -> Option<bool> {
    let setup = Setup::parse(alloc, SETUP).ok()?;
    let mut tree = tree(alloc)?;
    let modules = load_modules(alloc, &mut tree, b"/w", &setup).ok()?;
    let value = modules.config.string(b"submodule", Some(b"m"), b"active");
    Some(modules.file.names().count() == 1 && value == Some(b"".as_slice()))
}

fn report(alloc: Global, setup: &Setup) -> Option<Report> {
    let mut tree = tree(alloc)?;
    let mut objects = MemoryStore::new(alloc);
    let mut never = PlannedInterrupt::never();
    worktree_report(alloc, &mut tree, &mut objects, &mut never, b"/w", setup).ok()
}

/// Whether the last entry of a report is an active submodule.
fn last_entry_is_active_submodule(report: &Report) -> bool {
    match report.entries.as_slice() {
        [_, last] => match &last.facts {
            Some(facts) => facts.active == Activity::Active
                && facts.name.as_bytes() == b"m".as_slice(),
            None => false,
        },
        _ => false,
    }
}

/// Whether the report and its text are as they must be.
pub fn makes_expected_report_text(alloc: Global) -> Option<bool> {
    let setup = Setup::parse(alloc, SETUP).ok()?;
    let report = report(alloc, &setup)?;
    let text = report_bytes(alloc, &report, &setup.options).ok()?;
    Some(last_entry_is_active_submodule(&report) && text.as_bytes() == TEXT)
}

/// Whether statuses are those of the program.
pub fn report_errors_have_statuses() -> bool {
    exit_status_of_report_error(&ReportError::Modules { line: 1 }) == 5
        && exit_status_of_report_error(&ReportError::ReadFault) == 6
        && exit_status_of_report_error(&ReportError::OutOfMemory) == 8
}

/// Whether the defaults admit all but what git's installation has.
pub fn permissions_have_defaults() -> bool {
    Config::default() == Config::all()
        && Attributes::default() == Attributes::all()
        && Permissions::default() == Permissions::secure()
        && Permissions::default_for_level(Trust::Reduced) == Permissions::all()
        && Environment::all().home == Permission::Allow
}

/// Whether nothing is admitted from outside a repository that is isolated.
pub fn isolated_permissions_deny_outside() -> bool {
    let isolated = Permissions::isolated();
    isolated.config == Config::isolated()
        && isolated.attributes == Attributes::isolated()
        && isolated.env == Environment::isolated()
        && Environment::isolated().home == Permission::Deny
}
