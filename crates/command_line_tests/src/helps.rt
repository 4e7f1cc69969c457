//! The help texts.
use bstr::ByteSlice;
use command_line::{Topic, Verb, help_text_of_topic, version_line};

/// The options that each help text names, beside those that a switch of the same name turns off.
const REPORT: &[u8] =
    b"-u[MODE],--untracked-files,--ignored,--collapsed,--tracked,--pruned,--empty-directories,--origins,\
--submodules,--permissions,--outcome,--excludes,--no-excludes,--precious,--strict-parents,--no-strict-parents,--recurse-repositories,--bare-repositories,\
--links-as-directories,--for-deletion,--strategy,--depth,-z, --null,--plain,--color,--no-color,-h, --help";

const FILES: &[u8] =
    b"-c, --cached,-s, --stage,-u, --unmerged,-o, --others,-k, --killed,-d, --deleted,-m, --modified,-i, --ignored,-x, --exclude=,-X, --exclude-from=,--exclude-standard,--directory,--no-empty-directory,\
  -t ,  -v ,  -z ,--deduplicate,--full-name,--error-unmatch,-h, --help";

fn names_all(topic: Topic, names: &[u8]) -> bool {
    let text = help_text_of_topic(topic);
    names
        .split(|byte| *byte == b',')
        .all(|name| text.contains_str(name))
}

#[test]
fn help_texts_name_the_options(rt: HostRuntime) {
    let report = names_all(Topic::Of(Verb::Report), REPORT);
    let plan = names_all(
        Topic::Of(Verb::Plan),
        b"  -x , -X , --nonbare ,  --excludes,--no-excludes,  --strict-parents,--no-strict-parents,--depth=,-z, --null",
    );
    let modules = names_all(Topic::Of(Verb::Modules), b"--permissions=,-h, --help");
    let state = names_all(
        Topic::Of(Verb::State),
        b"--ignored,  --by-stat ,but for --by-stat,  --excludes,  --strict-parents,-z, --null,--color",
    );
    let pathless = !help_text_of_topic(Topic::Of(Verb::State)).contains_str(b"PATH");
    let by_stat_elsewhere = [
        Verb::Report,
        Verb::Plan,
        Verb::Modules,
        Verb::Files,
        Verb::Clean,
    ]
    .iter()
    .any(|verb| help_text_of_topic(Topic::Of(*verb)).contains_str(b"--by-stat"));
    let files = names_all(Topic::Of(Verb::Files), FILES);
    let clean = names_all(
        Topic::Of(Verb::Clean),
        b"-n, --dry-run,  -d ,  -x ,  -X ,-e PATTERN, --exclude=,-f, --force,-q, --quiet,-h, --help",
    );
    let whole = names_all(
        Topic::Whole,
        b"-C DIR,report,plan,modules,state,ls-files,clean,diff-files,check-ignore,--version",
    );
    assert!(rt;
        report & plan & modules & state & pathless & !by_stat_elsewhere & files & clean & whole
    );
}

#[test]
fn the_version_is_a_line(rt: HostRuntime) {
    assert!(rt; version_line().starts_with(b"tizhagor") && version_line().ends_with(b"\n"));
}
