//! Which conditions of an include hold.
ghost use Rattle.std.specs.Prelude.{◌≡◌, ◌∷◌, [], ◌++◌, ◌||◌, codes, nat_eq, Ok, Some, IfOk, option_copied, option_map, unwrap_or};
ghost use Rattle.std.specs.List.{ends_with};
ghost use Rattle.gitbase_core.specs.Path.{parent};
ghost use Rattle.worktree_fs.specs.Changes.{real_path};
ghost use Rattle.worktree_fs.specs.Tree.{is_empty};
ghost use Rattle.worktree_fs.specs.Repository.{text_after_prefix};
ghost use Rattle.git_config_files.specs.Answers.{AgreesUnlessFaultOrOutOfMemory};
ghost use Rattle.git_config_files.specs.Conditions as words;
ghost use Rattle.git_config_files.specs.Finds.{AnswersFromWorktree};

use crate::error::FilesError;
use crate::known::{Known, Repository};
use gitbase_core::{Bytes, OutOfMemory, PathText, eq_ignore_case, is_absolute};
use glob_rules::{Case, WildMode, wildmatch};
use std::alloc::Global;
use worktree_fs::Worktree;

/// The text behind `front`.
pub fn text_after_prefix<'a>(text: &'a [u8], front: &[u8]) -> Option<&'a [u8]>
    ensures { option_map (λ rest. rest.now) result ≡ text_after_prefix front.now text.now }
{
    text.strip_prefix(front)
}

/// A pattern that ends in a slash means all that lies beneath.
fn pattern_with_stars_after_slash(alloc: Global, pattern: &[u8]) -> Result<Bytes, OutOfMemory>
    ensures { IfOk result (λ made. made ≡ words.pattern_with_stars_after_slash pattern.now) }
{
    let mut made = Bytes::from_slice(alloc, pattern)?;
    if pattern.ends_with(b"/") {
        made.extend(alloc, b"**")?;
    }
    Ok(made)
}

/// One text behind another.
pub fn concatenate_texts(alloc: Global, front: &[u8], rest: &[u8]) -> Result<Bytes, OutOfMemory>
    ensures { IfOk result (λ made. made ≡ front.now ++ rest.now) }
{
    let mut made = Bytes::from_slice(alloc, front)?;
    made.extend(alloc, rest)?;
    Ok(made)
}

/// A pattern that begins with a `~` begins with the home, if there is one.
fn pattern_with_tilde_expanded(
    alloc: Global,
    home: Option<&[u8]>,
    pattern: &[u8],
) -> Result<Bytes, OutOfMemory>
    ensures { IfOk result (λ made. made ≡ words.pattern_with_tilde_expanded
        (option_copied home.entry) (text_after_prefix (codes "~") pattern.now) pattern.now) }
{
    match (home, text_after_prefix(pattern, b"~".as_slice())) {
        (Some(home), Some(rest)) => concatenate_texts(alloc, home, rest),
        _ => Bytes::from_slice(alloc, pattern),
    }
}

/// One that is not absolute then may lie anywhere.
fn with_double_star_unless_absolute(alloc: Global, pattern: &[u8]) -> Result<Bytes, OutOfMemory>
    ensures { IfOk result (λ made. made ≡ words.with_double_star_unless_absolute pattern.now) }
{
    if is_absolute(pattern) {
        return Bytes::from_slice(alloc, pattern);
    }
    let mut made = Bytes::from_slice(alloc, b"**/")?;
    made.extend(alloc, pattern)?;
    Ok(made)
}

/// Bytes, if there are some.
pub fn optional_bytes_as_slice(text: &Option<Bytes>) -> Option<&[u8]>
    ensures { option_copied result ≡ text.now }
{
    match text {
        Some(text) => Some(text.as_bytes()),
        None => None,
    }
}

fn expanded_gitdir_pattern(
    alloc: Global,
    home: Option<&[u8]>,
    pattern: &[u8],
) -> Result<Bytes, OutOfMemory>
    ensures { IfOk result
        (λ made. made ≡ words.expanded_gitdir_pattern (option_copied home.entry) pattern.now) }
{
    let pattern = pattern_with_tilde_expanded(alloc, home, pattern)?;
    let pattern = with_double_star_unless_absolute(alloc, pattern.as_bytes())?;
    pattern_with_stars_after_slash(alloc, pattern.as_bytes())
}

fn pattern_matches_path(case: Case, pattern: &[u8], text: &[u8]) -> bool
    ensures { result ≡ words.pattern_matches_path case pattern.now text.now }
{
    let mode = WildMode {
        case,
        wildcards_take_slash: false,
    };
    wildmatch(pattern, text, mode)
}

/// Whether two texts are equal, with or without regard to the case of letters.
fn is_equal_in_case_mode(case: Case, left: &[u8], right: &[u8]) -> bool
    ensures { result ≡ words.is_equal_in_case_mode case left.now right.now }
{
    match case {
        Case::Sensitive => left == right,
        Case::Fold => eq_ignore_case(left, right),
    }
}

/// What a text has behind a front.
fn text_after_prefix_in_case_mode<'a>(case: Case, front: &[u8], text: &'a [u8]) -> Option<&'a [u8]>
    ensures { option_map (λ rest. rest.now) result ≡ words.text_after_prefix_in_case_mode case
        front.now text.now }
{
    if text.len() < front.len() {
        return None;
    }
    let (head, rest) = text.split_at(front.len());
    if is_equal_in_case_mode(case, head, front) {
        return Some(rest);
    }
    None
}

fn pattern_matches_optional_text(case: Case, pattern: &[u8], text: Option<&[u8]>) -> bool
    ensures { result ≡ words.pattern_matches_optional_text case pattern.now
        (option_copied text.entry) }
{
    match text {
        Some(text) => pattern_matches_path(case, pattern, text),
        None => false,
    }
}

fn is_empty_or_ends_in_slash(rest: &[u8]) -> bool
    ensures { result ≡ (is_empty rest.now || ends_with nat_eq rest.now (47 ∷ [])) }
{
    rest.is_empty() || rest.ends_with(b"/")
}

/// A pattern beneath a directory.
fn with_double_star_if_directory(alloc: Global, rest: &[u8]) -> Result<Bytes, OutOfMemory>
    ensures { IfOk result (λ made. made ≡ words.with_double_star_if_directory rest.now) }
{
    let mut made = Bytes::from_slice(alloc, rest)?;
    if is_empty_or_ends_in_slash(rest) {
        made.extend(alloc, b"**")?;
    }
    Ok(made)
}

/// The directory of a file, with a slash behind it.
fn parent_directory_with_slash(alloc: Global, file: &PathText) -> Result<Bytes, OutOfMemory>
    ensures { IfOk result (λ made. made ≡ words.parent_directory_with_slash file.now) }
{
    match file.parent() {
        Some(directory) => concatenate_texts(alloc, directory, b"/"),
        None => Bytes::from_slice(alloc, b"/"),
    }
}

/// Whether a pattern beneath a directory matches the git directory, by what this has without links
/// behind that directory.
fn git_directory_matches_beneath(
    here: &Repository,
    case: Case,
    front: &[u8],
    pattern: &[u8],
    real: Option<&[u8]>,
) -> bool
    ensures { result ≡ words.git_directory_matches_beneath here.now case front.now pattern.now
        (option_copied real.entry) }
{
    let Some(real) = real else {
        return false;
    };
    if pattern_matches_path(case, pattern, real) {
        return true;
    }
    pattern_matches_optional_text(
        case,
        pattern,
        text_after_prefix_in_case_mode(case, front, here.spelled.as_bytes()),
    )
}

/// Whether the git directory matches a pattern that begins with `./`.
fn git_directory_matches_beside_file(
    alloc: Global,
    here: &Repository,
    case: Case,
    file: &PathText,
    rest: &[u8],
) -> Result<bool, OutOfMemory>
    ensures { IfOk result (λ is. is ≡ words.git_directory_matches_beside_file here.now case file.now
        rest.now) }
{
    let front = parent_directory_with_slash(alloc, file)?;
    let pattern = with_double_star_if_directory(alloc, rest)?;
    let front = front.as_bytes();
    let real = text_after_prefix_in_case_mode(case, front, here.git.as_bytes());
    Ok(git_directory_matches_beneath(here, case, front, pattern.as_bytes(), real))
}

/// Whether the git directory matches a whole pattern, by either spelling.
fn git_directory_matches_whole_pattern(
    alloc: Global,
    here: &Repository,
    home: Option<&[u8]>,
    case: Case,
    pattern: &[u8],
) -> Result<bool, OutOfMemory>
    ensures { IfOk result (λ is. is ≡ words.either_git_directory_passes here.now
        (words.pattern_matches_path case (words.expanded_gitdir_pattern (option_copied home.entry)
        pattern.now))) }
{
    let pattern = expanded_gitdir_pattern(alloc, home, pattern)?;
    if pattern_matches_path(case, pattern.as_bytes(), here.git.as_bytes()) {
        return Ok(true);
    }
    Ok(pattern_matches_path(case, pattern.as_bytes(), here.spelled.as_bytes()))
}

/// The path of a file without its links.
fn real_path_of_file<W: Worktree>(
    alloc: Global,
    worktree: &mut W,
    from: &[u8],
) -> Result<PathText, FilesError>
    ensures { AnswersFromWorktree W.Worktree worktree.old worktree.new
        (λ t. Ok (unwrap_or (real_path t from.now (47 ∷ [])) from.now)) result }
{
    match worktree.real_path(alloc, from, b"/")? {
        Some(real) => Ok(real),
        None => Ok(PathText::from_bytes(alloc, from)?),
    }
}

/// Whether what stands behind a `~` is the name of a user.
fn begins_with_user_name(rest: Option<&[u8]>) -> bool
    ensures { result ≡ words.begins_with_user_name (option_copied rest.entry) }
{
    match rest {
        Some([first, ..]) => *first != b'/',
        Some([]) => false,
        None => false,
    }
}

/// Whether a path is one that is not expanded here.
pub fn begins_with_unsupported_home(path: &[u8]) -> bool
    ensures { result ≡ words.begins_with_unsupported_home path.now }
{
    begins_with_user_name(text_after_prefix(path, b"~".as_slice()))
        || text_after_prefix(path, b"%(prefix)/".as_slice()).is_some()
}

/// Whether a pattern begins with a home that is the empty text.
fn expands_to_empty_home(home: Option<&[u8]>, rest: Option<&[u8]>) -> bool
    ensures { result ≡ words.expands_to_empty_home (option_copied home.entry) (option_copied
        rest.entry) }
{
    match (home, rest) {
        (Some(home), Some(_)) => home.is_empty(),
        (Some(_), None) => false,
        (None, _) => false,
    }
}

/// Whether a pattern begins with a home that cannot be asked for.
fn needs_unavailable_home(home: Option<&[u8]>, pattern: &[u8]) -> bool
    ensures { result ≡ words.needs_unavailable_home (option_copied home.entry) pattern.now }
{
    begins_with_unsupported_home(pattern)
        || expands_to_empty_home(home, text_after_prefix(pattern, b"~".as_slice()))
}

/// Whether the git directory is where a pattern of the file `from` says.
fn git_directory_matches_pattern<W: Worktree>(
    alloc: Global,
    worktree: &mut W,
    here: &Repository,
    home: Option<&[u8]>,
    from: &[u8],
    case: Case,
    pattern: &[u8],
) -> Result<bool, FilesError>
    ensures { AnswersFromWorktree W.Worktree worktree.old worktree.new
        (λ t. Ok (words.git_directory_matches_pattern t here.now (option_copied home.entry) from.now
        case (text_after_prefix (codes "./") pattern.now) pattern.now)) result }
{
    match text_after_prefix(pattern, b"./".as_slice()) {
        Some(rest) => {
            let file = real_path_of_file(alloc, worktree, from)?;
            Ok(git_directory_matches_beside_file(alloc, here, case, &file, rest)?)
        }
        None => Ok(git_directory_matches_whole_pattern(alloc, here, home, case, pattern)?),
    }
}

/// Whether a condition on the git directory of a repository holds.
fn gitdir_condition_holds_in_repository<W: Worktree>(
    alloc: Global,
    worktree: &mut W,
    here: &Repository,
    home: &Option<Bytes>,
    from: &[u8],
    case: Case,
    pattern: &[u8],
) -> Result<bool, FilesError>
    ensures { AnswersFromWorktree W.Worktree worktree.old worktree.new
        (λ t. words.gitdir_condition_holds_if_repository t home.now from.now case pattern.now
        (Some here.now)) result }
{
    if needs_unavailable_home(optional_bytes_as_slice(home), pattern) {
        return Err(FilesError::Home {
            path: PathText::from_bytes(alloc, from)?,
        });
    }
    git_directory_matches_pattern(
        alloc,
        worktree,
        here,
        optional_bytes_as_slice(home),
        from,
        case,
        pattern,
    )
}

/// The same where no repository may be known: there it does not.
fn gitdir_condition_holds_if_repository<W: Worktree>(
    alloc: Global,
    worktree: &mut W,
    repository: &Option<Repository>,
    home: &Option<Bytes>,
    from: &[u8],
    case: Case,
    pattern: &[u8],
) -> Result<bool, FilesError>
    ensures { AnswersFromWorktree W.Worktree worktree.old worktree.new
        (λ t. words.gitdir_condition_holds_if_repository t home.now from.now case pattern.now
        repository.now) result }
{
    match repository {
        Some(here) => gitdir_condition_holds_in_repository(
            alloc, worktree, here, home, from, case, pattern,
        ),
        None => Ok(false),
    }
}

/// Whether a condition on the git directory holds.
fn gitdir_condition_holds<W: Worktree>(
    alloc: Global,
    worktree: &mut W,
    known: &Known,
    from: &[u8],
    case: Case,
    pattern: &[u8],
) -> Result<bool, FilesError>
    ensures { AnswersFromWorktree W.Worktree worktree.old worktree.new
        (λ t. words.gitdir_condition_holds t known.now from.now case pattern.now) result }
{
    let home = &known.real_home;
    gitdir_condition_holds_if_repository(
        alloc,
        worktree,
        &known.repository,
        home,
        from,
        case,
        pattern,
    )
}

/// The branch of a repository, if one is known, and has one.
fn branch_of_optional_repository(repository: &Option<Repository>) -> Option<&[u8]>
    ensures { option_copied result ≡ words.branch_of_optional_repository repository.now }
{
    match repository {
        Some(here) => optional_bytes_as_slice(&here.branch),
        None => None,
    }
}

/// Whether a condition on the branch holds.
fn branch_matches_pattern(
    alloc: Global,
    branch: Option<&[u8]>,
    pattern: &[u8],
) -> Result<bool, OutOfMemory>
    ensures { IfOk result (λ is. is ≡ words.branch_matches_pattern (option_copied branch.entry)
        pattern.now) }
{
    let Some(branch) = branch else {
        return Ok(false);
    };
    let pattern = pattern_with_stars_after_slash(alloc, pattern)?;
    Ok(pattern_matches_path(Case::Sensitive, pattern.as_bytes(), branch))
}

/// A condition on the branch, or one that is not known, or not read.
fn non_gitdir_condition_holds(
    alloc: Global,
    known: &Known,
    from: &[u8],
    condition: &[u8],
) -> Result<bool, FilesError>
    ensures { AgreesUnlessFaultOrOutOfMemory result (words.non_gitdir_condition_holds known.now
        from.now condition.now) }
{
    if let Some(pattern) = text_after_prefix(condition, b"onbranch:".as_slice()) {
        return Ok(branch_matches_pattern(
            alloc,
            branch_of_optional_repository(&known.repository),
            pattern,
        )?);
    }
    if text_after_prefix(condition, b"hasconfig:remote.*.url:".as_slice()).is_some() {
        return Err(FilesError::Condition {
            path: PathText::from_bytes(alloc, from)?,
        });
    }
    Ok(false)
}

/// Whether a condition of the file `from` holds: the text behind `includeIf.` and before the last
/// dot of the key. One that is not known does not hold.
pub fn include_condition_holds<W: Worktree>(
    alloc: Global,
    worktree: &mut W,
    known: &Known,
    from: &[u8],
    condition: &[u8],
) -> Result<bool, FilesError>
    ensures { AnswersFromWorktree W.Worktree worktree.old worktree.new
        (λ t. words.include_condition_holds t known.now from.now condition.now) result }
{
    if let Some(pattern) = text_after_prefix(condition, b"gitdir:".as_slice()) {
        return gitdir_condition_holds(alloc, worktree, known, from, Case::Sensitive, pattern);
    }
    if let Some(pattern) = text_after_prefix(condition, b"gitdir/i:".as_slice()) {
        return gitdir_condition_holds(alloc, worktree, known, from, Case::Fold, pattern);
    }
    non_gitdir_condition_holds(alloc, known, from, condition)
}
