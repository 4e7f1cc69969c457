//! What words ask for.
use bstr::ByteSlice;
use clean_plan::{Finding, What};
use command_line::{
    Color, Command, Force, Form, LineEnd, Misuse, Request, RulesGiven, Topic, Verb, Wording,
    message_of_misuse, parse_request_words,
};
use dir_classify::{CollapsedEntriesEmissionMode, EmissionMode, ForDeletionMode};
use git_clean::Cleaning;
use git_setup::Asked;
use gitbase_core::Bytes;
use ls_files::{DeletedModifiedChoice, Listing};
use std::alloc::Global;
use worktree_report::{SetupOptions, Strategy};

/// Rows: the words, parted by `,`, and behind `>` what is to be so, parted by `;`.
const ROWS: &[u8] = b"\
report>report;untracked;strict;excludes;depth 256;no path;words;feed;auto;here\n\
-C,/w/d,report>report;in /w/d\n\
-C,,report>report;here\n\
report,-u>untracked\n\
report,-ucollapse>untracked collapse\n\
report,--untracked-files=collapse,-umatching>untracked\n\
report,--ignored>ignored\n\
report,--ignored=collapse>ignored collapse\n\
report,--ignored,--ignored=no>not ignored\n\
report,--collapsed=mismatch>collapsed mismatch\n\
report,--collapsed=all>collapsed all\n\
report,--tracked,--pruned,--empty-directories>tracked;pruned;empty\n\
report,--tracked,--no-tracked>not tracked\n\
report,--origins,--submodules,--outcome,--precious>origins;submodules;outcome;precious\n\
report,--no-excludes,--no-strict-parents>not excludes;not strict\n\
report,--recurse-repositories,--bare-repositories,--links-as-directories>recurse;bare;links\n\
report,--for-deletion=hide>deletion hide\n\
report,--for-deletion=nonbare>deletion nonbare\n\
report,--strategy=at-once>at once\n\
report,--depth=7>depth 7\n\
report,--depth,1000,a>depth 1000;path a\n\
report,-z,--plain,--color>nul;letters;always\n\
report,--color=auto,--no-color>never\n\
report,-zucollapse,a>nul;untracked collapse;path a\n\
report,a,--tracked>tracked;path a\n\
report,--,--tracked>not tracked;path --tracked\n\
report,->path -\n\
plan>plan;only untracked;bare stay\n\
plan,-xz>plan;ignored too;nul\n\
plan,-X,--nonbare,a>plan;ignored alone;bare go;path a\n\
plan,--no-excludes,--depth=0>plan;not excludes;depth 0\n\
modules>modules\n\
modules,--permissions=isolated>modules;isolated\n\
state>state;by bytes;no path;words;feed\n\
state,--ignored,-z>state;by bytes;ignored;nul\n\
state,--by-stat>state;by stat;untracked;not ignored;no path;words;feed;auto;here\n\
state,--by-stat,--ignored,-z>state;by stat;ignored;nul\n\
-C,/w/d,state,-z,--by-stat,--by-stat,--no-excludes>in /w/d;state;by stat;nul;not excludes\n\
ls-files>files;index;current;depth 1000;no path;from here\n\
ls-files,-oz,--exclude-standard>others;ended;rules\n\
ls-files,--others,--no-others,a>not others;path a\n\
ls-files,-oxa>others;pattern a;not rules\n\
ls-files,-o,--exclude=a b,--exclude-per-directory=.gitignore>pattern a b;rules of directories;not rules\n\
ls-files,-o,-x,-c,--exclude-standard>pattern -c;rules\n\
ls-files,-k>killed;not others\n\
ls-files,--killed,-o,--no-others>killed;not others\n\
ls-files,-d>gone;not others;from here\n\
ls-files,-m,--,a>other;not others;path a\n\
ls-files,-md>gone or other;not others\n\
ls-files,--deleted,--modified,--no-deleted>other\n\
ls-files,-dm,--no-deleted,--no-modified>files;not others\n\
ls-files,-ocd,-xa>gone;others;pattern a\n\
ls-files,--no-empty-directory,--directory>directories\n\
ls-files,-oX,a,--exclude-from=b>others;stronger a b;weaker;no pattern\n\
ls-files,-X,a,--exclude-standard,-Xb>rules;weaker a;stronger b\n\
ls-files,-Xa,--exclude-standard,--exclude-from,-o,--exclude-standard>weaker a -o;stronger;not others\n\
ls-files,-o,-X,,-x,b>stronger ;pattern b\n\
ls-files,--full-name,--,-o>not others;from the top;path -o\n\
ls-files,-sh>help files\n\
clean,-n>clean;dry;spares;current;depth 1000;no path;no pattern;unforced\n\
clean,-ndx,a>dry;directories;ignored too;path a\n\
clean,a,-qX,--dry-run>dry;quiet;ignored alone;directories;path a\n\
clean,-n,--no-dry-run,--quiet,--no-quiet>wet;loud\n\
clean,-ffn>dry;forced twice\n\
clean,-n,--force>forced once\n\
clean,-f,--no-force>dropped\n\
clean,--no-force,-nf>alone\n\
clean,-nea>dry;pattern a;no path;spares\n\
clean,-ne,-d,b>dry;pattern -d;path b\n\
clean,--exclude=a b>pattern a b\n\
clean,--exclude,--,-n>dry;pattern --;no path\n\
clean,-e,>pattern \n\
clean,-n,--,-d>path -d;directories\n\
clean,-nh>help clean\n\
report,--help>help report\n\
plan,-zh>help plan\n\
state,--by-stat,-h>help state\n\
--help>help whole\n\
-h>help whole\n\
--version>version";

/// Words that ask for nothing, parted by `,`, and behind `>` the first line that is said of them.
const WRONG: &[u8] = b"\
>error: no command is given\n\
-C>error: option `-C' requires a value\n\
-C,a,-C,b,report>error: option `-C' stands more than once\n\
status>error: unknown command `status'\n\
--bare,report>error: unknown option `--bare'\n\
report,--bare>error: unknown option `--bare'\n\
report,-x>error: unknown switch `x'\n\
report,-zq>error: unknown switch `q'\n\
report,--collapsed>error: option `--collapsed' requires a value\n\
report,--depth>error: option `--depth' requires a value\n\
report,--tracked=yes>error: option `--tracked=yes' takes no value\n\
report,--ignored=all>error: option `--ignored=all' has a value that is not known\n\
report,-uno>error: option `-uno' has a value that is not known\n\
report,--depth,01>error: `01' is no depth, which is a number from 0 to 1000\n\
report,--depth=1001>error: `--depth=1001' is no depth, which is a number from 0 to 1000\n\
plan,--tracked>error: unknown option `--tracked'\n\
modules,-z>error: unknown switch `z'\n\
modules,a>error: `a' is a path, and this command takes none\n\
ls-files,-oX>error: switch `X' requires a value\n\
ls-files,-o,--exclude-from>error: option `--exclude-from' requires a value\n\
ls-files,--no-exclude-from>error: unknown option `--no-exclude-from'\n\
ls-files,--exclude-standard=a>error: option `--exclude-standard=a' takes no value\n\
ls-files,--eol>error: option `--eol' is git's, and is not answered here\n\
ls-files,--exclude-per-directory=a>error: option `--exclude-per-directory=a' is git's, and is not answered here\n\
ls-files,-o,-x>error: switch `x' requires a value\n\
ls-files,-o,--exclude>error: option `--exclude' requires a value\n\
ls-files,-q>error: unknown switch `q'\n\
ls-files,--no-full-name>error: unknown option `--no-full-name'\n\
ls-files,--cached=1>error: option `--cached=1' takes no value\n\
clean,-ni>error: switch `i' is git's, and is not answered here\n\
clean,--interactive>error: option `--interactive' is git's, and is not answered here\n\
clean,-nz>error: unknown switch `z'\n\
clean,--no-exclude>error: unknown option `--no-exclude'\n\
clean,--dry-run=3>error: option `--dry-run=3' takes no value\n\
clean,-n,-e>error: switch `e' requires a value\n\
clean,-ne>error: switch `e' requires a value\n\
clean,-ea >error: the pattern in `-ea ' has a line feed, or a blank or carriage return at its end\n\
ls-files,-e>error: unknown switch `e'\n\
state,--,--plain>error: `--plain' is a path, and this command takes none\n\
state,--plain>error: unknown option `--plain'\n\
report,--by-stat>error: unknown option `--by-stat'\n\
plan,--by-stat>error: unknown option `--by-stat'\n\
modules,--by-stat>error: unknown option `--by-stat'\n\
ls-files,--by-stat>error: unknown option `--by-stat'\n\
diff-files,--by-stat>error: unknown option `--by-stat'\n\
report,--by-stat=x>error: unknown option `--by-stat=x'\n\
state,--no-by-stat>error: unknown option `--no-by-stat'\n\
state,--by-stat,a>error: `a' is a path, and this command takes none\n\
state,--by-stat=>error: option `--by-stat=' takes no value\n\
state,--by-stat=x>error: option `--by-stat=x' takes no value";

/// The words of a row.
fn words_of(alloc: Global, row: &[u8]) -> Option<Vec<Bytes>> {
    let mut words = Vec::new(alloc);
    if row.is_empty() {
        return Some(words);
    }
    for word in row.split(|byte| *byte == b',') {
        let Ok(word) = Bytes::from_slice(alloc, word) else {
            return None;
        };
        if words.push(word).is_err() {
            return None;
        }
    }
    Some(words)
}

fn is_untracked(options: &SetupOptions, mode: EmissionMode) -> bool {
    options.emit_untracked == mode
}

/// Whether the options are so.
fn are_options(options: &SetupOptions, want: &[u8]) -> bool {
    if want == b"untracked".as_slice() {
        is_untracked(options, EmissionMode::Matching)
    } else if want == b"untracked collapse".as_slice() {
        is_untracked(options, EmissionMode::CollapseDirectory)
    } else if want == b"ignored".as_slice() {
        options.emit_ignored == Some(EmissionMode::Matching)
    } else if want == b"ignored collapse".as_slice() {
        options.emit_ignored == Some(EmissionMode::CollapseDirectory)
    } else if want == b"not ignored".as_slice() {
        options.emit_ignored.is_none()
    } else if want == b"collapsed mismatch".as_slice() {
        options.emit_collapsed == Some(CollapsedEntriesEmissionMode::OnStatusMismatch)
    } else if want == b"collapsed all".as_slice() {
        options.emit_collapsed == Some(CollapsedEntriesEmissionMode::All)
    } else if want == b"deletion hide".as_slice() {
        options.for_deletion == Some(ForDeletionMode::IgnoredDirectoriesCanHideNestedRepositories)
    } else if want == b"deletion nonbare".as_slice() {
        options.for_deletion == Some(ForDeletionMode::FindNonBareRepositoriesInIgnoredDirectories)
    } else if want == b"at once".as_slice() {
        options.strategy == Strategy::AtOnce
    } else if want == b"isolated".as_slice() {
        !options.permissions.config.user
    } else {
        are_switches(options, want)
    }
}

/// Whether what is turned on or off is so.
fn are_switches(options: &SetupOptions, want: &[u8]) -> bool {
    if want == b"tracked".as_slice() {
        options.emit_tracked
    } else if want == b"not tracked".as_slice() {
        !options.emit_tracked
    } else if want == b"pruned".as_slice() {
        options.emit_pruned
    } else if want == b"empty".as_slice() {
        options.emit_empty_directories
    } else if want == b"origins".as_slice() {
        options.origins
    } else if want == b"submodules".as_slice() {
        options.submodules
    } else if want == b"outcome".as_slice() {
        options.print_outcome
    } else if want == b"precious".as_slice() {
        options.precious
    } else if want == b"excludes".as_slice() {
        options.excludes
    } else if want == b"not excludes".as_slice() {
        !options.excludes
    } else if want == b"strict".as_slice() {
        options.strict_parents
    } else if want == b"not strict".as_slice() {
        !options.strict_parents
    } else if want == b"recurse".as_slice() {
        options.recurse_repositories
    } else if want == b"bare".as_slice() {
        options.classify_untracked_bare_repositories
    } else {
        want == b"links".as_slice() && options.symlinks_to_directories_are_ignored_like_directories
    }
}

/// Whether there is one path, which is this.
fn is_path(asked: &Asked, want: &[u8]) -> bool {
    asked.paths.len() == 1 && asked.paths[0].as_bytes() == want
}

/// Whether what is asked of the work tree is so.
fn is_asked(asked: &Asked, want: &[u8]) -> bool {
    if want == b"no path".as_slice() {
        asked.paths.is_empty()
    } else if want == b"current".as_slice() {
        asked.prefers_current
    } else if want.starts_with(b"path ") {
        is_path(asked, &want[5..])
    } else if want == b"depth 256".as_slice() {
        asked.depth == 256
    } else if want == b"depth 7".as_slice() {
        asked.depth == 7
    } else if want == b"depth 1000".as_slice() {
        asked.depth == 1000
    } else if want == b"depth 0".as_slice() {
        asked.depth == 0
    } else {
        are_options(&asked.options, want)
    }
}

/// Whether the form is so.
fn is_form(form: Form, want: &[u8]) -> bool {
    if want == b"words".as_slice() {
        form.wording == Wording::Words
    } else if want == b"letters".as_slice() {
        form.wording == Wording::Letters
    } else if want == b"feed".as_slice() {
        form.end == LineEnd::Feed
    } else if want == b"nul".as_slice() {
        form.end == LineEnd::Nul
    } else if want == b"auto".as_slice() {
        form.color == Color::Auto
    } else if want == b"always".as_slice() {
        form.color == Color::Always
    } else {
        want == b"never".as_slice() && form.color == Color::Never
    }
}

/// Whether what changed is told so.
fn is_state(by_stat: bool, want: &[u8]) -> bool {
    if want == b"state".as_slice() {
        true
    } else if want == b"by stat".as_slice() {
        by_stat
    } else {
        want == b"by bytes".as_slice() && !by_stat
    }
}

/// Whether what may be removed is so.
fn is_plan(what: What, finding: Finding, want: &[u8]) -> bool {
    if want == b"plan".as_slice() {
        true
    } else if want == b"only untracked".as_slice() {
        what == What::Untracked
    } else if want == b"ignored too".as_slice() {
        what == What::UntrackedAndIgnored
    } else if want == b"ignored alone".as_slice() {
        what == What::IgnoredOnly
    } else if want == b"bare stay".as_slice() {
        finding == Finding::All
    } else {
        want == b"bare go".as_slice() && finding == Finding::NonBare
    }
}

/// Whether what changed is listed so.
fn is_changed(standings: DeletedModifiedChoice, want: &[u8]) -> bool {
    match standings {
        DeletedModifiedChoice::Deleted => want == b"gone".as_slice(),
        DeletedModifiedChoice::Modified => want == b"other".as_slice(),
        DeletedModifiedChoice::Both => want == b"gone or other".as_slice(),
    }
}

/// Whether a listing is so.
fn is_listing(listing: &Listing, want: &[u8]) -> bool {
    if want == b"index".as_slice() {
        !listing.cached && !listing.others && listing.quote_path && listing.empty_directories
    } else if want == b"others".as_slice() {
        listing.others
    } else if want == b"not others".as_slice() {
        !listing.others
    } else if want == b"killed".as_slice() {
        listing.killed
    } else if want == b"ended".as_slice() {
        listing.ends_in_nul
    } else if want == b"rules".as_slice() {
        listing.excludes_standard
    } else if want == b"not rules".as_slice() {
        !listing.excludes_standard
    } else if want == b"rules of directories".as_slice() {
        listing.excludes_directories
    } else if want == b"directories".as_slice() {
        listing.directories && !listing.empty_directories
    } else if want == b"from here".as_slice() {
        !listing.full_names
    } else {
        want == b"from the top".as_slice() && listing.full_names
    }
}

/// Whether a cleaning is so.
fn is_cleaning(cleaning: &Cleaning, want: &[u8]) -> bool {
    if want == b"clean".as_slice() {
        cleaning.quote_path && !cleaning.repositories
    } else if want == b"dry".as_slice() {
        cleaning.dry_run
    } else if want == b"wet".as_slice() {
        !cleaning.dry_run
    } else if want == b"directories".as_slice() {
        cleaning.directories
    } else if want == b"spares".as_slice() {
        !cleaning.directories && !cleaning.ignored_too && !cleaning.ignored_only
    } else if want == b"ignored too".as_slice() {
        cleaning.ignored_too
    } else if want == b"ignored alone".as_slice() {
        cleaning.ignored_only
    } else if want == b"quiet".as_slice() {
        cleaning.quiet
    } else {
        want == b"loud".as_slice() && !cleaning.quiet
    }
}

/// Whether it is to go by force so often.
fn is_forced(force: Force, want: &[u8]) -> bool {
    if want == b"unforced".as_slice() {
        force == Force::Unsaid
    } else if want == b"forced once".as_slice() {
        force == Force::Once
    } else if want == b"forced twice".as_slice() {
        force == Force::Twice
    } else if want == b"dropped".as_slice() {
        force == Force::Dropped
    } else {
        want == b"alone".as_slice() && force == Force::Alone
    }
}

/// Whether there is one pattern, which is this.
fn is_pattern(patterns: &[Bytes], want: &[u8]) -> bool {
    if want == b"no pattern".as_slice() {
        return patterns.is_empty();
    }
    want.starts_with(b"pattern ") && patterns.len() == 1 && patterns[0].as_bytes() == &want[8..]
}

/// What follows a text at the front, if it stands there.
fn behind<'a>(text: &'a [u8], front: &[u8]) -> Option<&'a [u8]> {
    if !text.starts_with(front) {
        return None;
    }
    let (_, rest) = text.split_at(front.len());
    Some(rest)
}

/// What follows a blank and a name.
fn behind_name<'a>(text: &'a [u8], name: &[u8]) -> Option<&'a [u8]> {
    match behind(text, b" ") {
        Some(rest) => behind(rest, name),
        None => None,
    }
}

/// Whether these are the names behind a word, each behind a blank.
fn are_named(names: &[Bytes], word: &[u8], want: &[u8]) -> bool {
    let Some(mut rest) = behind(want, word) else {
        return false;
    };
    for name in names {
        let Some(after) = behind_name(rest, name.as_bytes()) else {
            return false;
        };
        rest = after;
    }
    rest.is_empty()
}

/// Whether the rules of a listing are these.
fn is_ruled(rules: &RulesGiven, want: &[u8]) -> bool {
    is_pattern(&rules.patterns, want)
        || are_named(&rules.weaker, b"weaker", want)
        || are_named(&rules.stronger, b"stronger", want)
}

/// Whether the help text is about this.
fn is_help(topic: Topic, want: &[u8]) -> bool {
    match topic {
        Topic::Whole => want == b"help whole".as_slice(),
        Topic::Of(Verb::Report) => want == b"help report".as_slice(),
        Topic::Of(Verb::Plan) => want == b"help plan".as_slice(),
        Topic::Of(Verb::State) => want == b"help state".as_slice(),
        Topic::Of(Verb::Files) => want == b"help files".as_slice(),
        Topic::Of(Verb::Clean) => want == b"help clean".as_slice(),
        Topic::Of(_) => false,
    }
}

/// Whether a command is so.
fn is_command(command: &Command, want: &[u8]) -> bool {
    match command {
        Command::Report { asked, form } => {
            want == b"report".as_slice() || is_asked(asked, want) || is_form(*form, want)
        }
        Command::Plan {
            asked,
            what,
            finding,
            form,
        } => is_plan(*what, *finding, want) || is_asked(asked, want) || is_form(*form, want),
        Command::Modules { asked } => want == b"modules".as_slice() || is_asked(asked, want),
        Command::State {
            asked,
            form,
            by_stat,
        } => is_state(*by_stat, want) || is_asked(asked, want) || is_form(*form, want),
        Command::Files { asked, files } => {
            want == b"files".as_slice()
                || is_asked(asked, want)
                || is_listing(&files.listing, want)
                || is_ruled(&files.rules, want)
        }
        Command::Changed {
            asked,
            files,
            standings,
        } => {
            is_asked(asked, want)
                || is_listing(&files.listing, want)
                || is_ruled(&files.rules, want)
                || is_changed(*standings, want)
        }
        Command::Clean { asked, clean } => {
            is_asked(asked, want)
                || is_cleaning(&clean.cleaning, want)
                || is_forced(clean.force, want)
                || is_pattern(&clean.patterns, want)
        }
        Command::Compare { .. } => false,
        Command::Check { .. } => false,
        Command::Help(topic) => is_help(*topic, want),
        Command::Version => want == b"version".as_slice(),
    }
}

/// Whether the directory is this.
fn is_in(directory: &Option<Bytes>, want: &[u8]) -> bool {
    match directory {
        Some(directory) => directory.as_bytes() == want,
        None => false,
    }
}

/// Whether a request is so.
fn is_so(request: &Request, want: &[u8]) -> bool {
    if want == b"here".as_slice() {
        request.directory.is_none()
    } else if want.starts_with(b"in ") {
        is_in(&request.directory, &want[3..])
    } else {
        is_command(&request.command, want)
    }
}

/// Whether the words ask for all that is wanted.
fn are_wanted(words: &[Bytes], alloc: Global, wants: &[u8]) -> bool {
    match parse_request_words(alloc, words) {
        Ok(request) => wants
            .split(|byte| *byte == b';')
            .all(|want| is_so(&request, want)),
        Err(_) => false,
    }
}

fn asks(alloc: Global, row: &[u8]) -> bool {
    let (words, wants) = row.split_once_str(b">").unwrap_or((row, b""));
    match words_of(alloc, words) {
        Some(words) => are_wanted(&words, alloc, wants),
        None => false,
    }
}

/// Whether this line is said first of a misuse, and then the usage.
fn is_said(alloc: Global, misuse: &Misuse, want: &[u8]) -> bool {
    match message_of_misuse(alloc, misuse) {
        Ok(text) => {
            let (line, usage) = text.as_bytes().split_once_str(b"\n").unwrap_or((b"", b""));
            line == want && usage.starts_with(b"usage: tizhagor ")
        }
        Err(_) => false,
    }
}

fn are_wrong(words: &[Bytes], alloc: Global, want: &[u8]) -> bool {
    match parse_request_words(alloc, words) {
        Ok(_) => false,
        Err(misuse) => is_said(alloc, &misuse, want),
    }
}

fn is_refused(alloc: Global, row: &[u8]) -> bool {
    let (words, want) = row.split_once_str(b">").unwrap_or((row, b""));
    match words_of(alloc, words) {
        Some(words) => are_wrong(&words, alloc, want),
        None => false,
    }
}

#[test]
fn words_ask_for_what_the_help_text_says(rt: HostRuntime) {
    for row in ROWS.lines() {
        assert!(rt; asks(rt.alloc(), row), "{}", row.as_bstr());
    }
}

#[test]
fn the_word_that_is_wrong_is_named(rt: HostRuntime) {
    for row in WRONG.lines() {
        assert!(rt; is_refused(rt.alloc(), row), "{}", row.as_bstr());
    }
}
