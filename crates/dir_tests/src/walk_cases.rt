//! The cases of walks, each behind an `@`, each step on a line of its own.

/// A step `walk` names a worktree root and the answer: the path where the
/// walk began, how many directories were read, how many entries were met, and the entries by path;
/// or why there is none, where, and for a link in the traversal root at which component. An entry
/// is its status, its kind on disk, that in the index, how path specs match, its property, the
/// status of what was folded over it, the rule that decided about excludes, and its path. A rule is
/// `globals` or how many components the directory of its list has, then its line and its sign.
pub const WALKS: &[u8] = b"\
@ an empty directory`-
  directory`/w/e
  walk`/w`/w`2`1
  ask`options`empty
  walk`/w`/w`2`1`untracked directory - always empty - - e
@ order of paths`-
  file`/w/ab
  file`/w/a/c
  file`/w/a.b
  file`/w/a/b
  file`/w/B
  walk`/w`/w`2`5`\
      untracked file - always - - - B`\
      untracked file - always - - - a.b`\
      untracked file - always - - - a/b`\
      untracked file - always - - - a/c`\
      untracked file - always - - - ab
  reversed
  walk`/w`/w`2`5`\
      untracked file - always - - - B`\
      untracked file - always - - - a.b`\
      untracked file - always - - - a/b`\
      untracked file - always - - - a/c`\
      untracked file - always - - - ab
@ roots and depths`-
  file`/w/a/b/f
  file`/e/g
  directory`/e/h
  link`/l`w
  link`/m`w/a/b/f
  link`/n`n
  ask`depth`2
  walk`/w`/w`3`1`untracked file - always - - - a/b/f
  walk`/l`/l`3`1`untracked file - always - - - a/b/f
  walk`/e/g`no root`/e/g
  walk`/m`no root`/m
  walk`/n`no root`/n
  walk`/x`no root`/x
  ask`depth`1
  walk`/w`too deep`/w/a/b
  walk`/w/`too deep`/w/a/b
  walk`/l`too deep`/l/a/b
  walk`//e/`//e/`2`2`untracked file - always - - - g
  ask`depth`0
  walk`/w`too deep`/w/a
  walk`/`too deep`/e
  walk`/w/a/b`/w/a/b`1`1`untracked file - always - - - f
@ a sparse checkout`-
  file`/w/d/f
  index`d/`tree
  ask`options`pruned
  walk`/w`/w`1`1`pruned directory directory always sparse - - d
@ paths that a spec takes out`-
  file`/w/x
  file`/w/y
  ask`specs`:!x
  walk`/w`/w`1`2`untracked file - always - - - y
  ask`options`pruned
  walk`/w`/w`1`2`untracked file - excluded - - - x`untracked file - always - - - y
@ a worktree of its own that is a file`-
  file`/w/x
  ask`worktree`x
  ask`options`tracked
  walk`/w`/w`1`1`tracked repository - always - - - x
@ an up-to-date directory that is a file`-
  file`/w/d
  index`d/t`file`up to date
  walk`/w`no directory`/w/d
@ an up-to-date directory that is a link`-
  file`/x/f
  link`/w/d`/x
  index`d/t`file`up to date
  walk`/w`no directory`/w/d
@ an up-to-date directory`-
  file`/w/e/f
  directory`/w/d
  index`d/x`file`up to date
  walk`/w`/w`3`2`untracked file - always - - - e/f";

/// Cases of folding, of deletion and of what they leave.
pub const FOLDS: &[u8] = b"\
@ a directory that is folded`-
  file`/w/d/a
  file`/w/d/b
  walk`/w`/w`2`2`untracked file - always - - - d/a`untracked file - always - - - d/b
  ask`options`folding
  walk`/w`/w`2`3`untracked directory - always - - - d
  ask`options`folding within
  walk`/w`/w`2`3`\
      untracked directory - always - - - d`\
      untracked file - always - untracked - d/a`\
      untracked file - always - untracked - d/b
  reversed
  walk`/w`/w`2`3`\
      untracked directory - always - - - d`\
      untracked file - always - untracked - d/a`\
      untracked file - always - untracked - d/b
@ a directory with a repository`-
  file`/w/d/a
  git`/w/d/r/.git
  ask`options`folding
  walk`/w`/w`2`2`untracked file - always - - - d/a`untracked repository - always - - - d/r
@ a directory with a tracked file`-
  file`/w/d/t
  file`/w/d/u
  index`d/t`file
  ask`options`folding
  walk`/w`/w`2`2`untracked file - always - - - d/u
  ask`options`folding tracked
  walk`/w`/w`2`2`tracked file file always - - - d/t`untracked file - always - - - d/u
@ what is unlike the directory above it`*.o
  file`/w/d/a
  file`/w/d/b.o
  ask`options`folding shown within-unlike
  walk`/w`/w`2`3`\
      untracked directory - always - - - d`\
      ignored file - always - untracked globals:1:+ d/b.o
@ a spec below a directory`-
  file`/w/d/a1
  file`/w/d/b
  ask`specs`d/a*
  ask`options`folding
  walk`/w`/w/d`1`3`untracked directory - wildcard - - - d
  index`d/b`file
  walk`/w`/w/d`1`2`untracked file - wildcard - - - d/a1
@ a usual checkout``
  git`/w/.git
  git`/w/.git/modules/lib
  file`/w/.gitignore`target/
  file`/w/.gitmodules
  file`/w/src/main.c
  file`/w/lib/.git`gitdir: ../.git/modules/lib
  file`/w/target/x.o
  file`/w/notes/a
  file`/w/notes/b
  index`.gitignore`file
  index`.gitmodules`file
  index`lib`commit
  index`src/main.c`file
  ask`options`folding shown-folded
  walk`/w`/w`3`9`\
      untracked directory - always - - - notes`\
      ignored directory - always - - 0:1:+ target
@ precious paths in deletion`$key
  file`/w/d/key
  file`/w/d/x
  ask`options`nonbare folding shown-folded
  walk`/w`/w`2`2`precious file - always - - globals:1:+ d/key`untracked file - always - - - d/x
@ the current directory in deletion`-
  directory`/w/d
  ask`current`/w/d
  ask`options`nonbare
  walk`/w`/w`2`1`untracked directory - always current - - d
@ a repository in an ignored directory`build/
  git`/w/build/r/.git
  ask`options`hide shown-folded
  walk`/w`/w`1`1`ignored directory - always - - globals:1:+ build
  ask`options`nonbare shown-folded
  walk`/w`/w`2`1`ignored repository - always - - globals:1:+ build/r";

/// Cases of traversal roots.
pub const ROOTS: &[u8] = b"\
@ traversal roots`-
  link`/w/l`/x
  file`/w/a
  file`/w/d/f
  link`/w/d/l`/x
  ask`root`l/x
  walk`/w`link in root`/w/l/x`0
  ask`root`d/l/x
  walk`/w`link in root`/w/d/l/x`1
  ask`root`gone
  walk`/w`no component`/w/gone
  ask`root`../w
  walk`/w`outside`../w
  ask`root`/w
  walk`/w`outside`/w
  ask`root`d
  walk`/w`/w/d`1`2`untracked file - always - - - d/f`untracked symlink - always - - - d/l
  ask`root`d/f
  walk`/w`/w/d/f`0`1`untracked file - always - - - d/f
  ask`root`a/..
  walk`/w`/w`2`4`\
      untracked file - always - - - a`\
      untracked file - always - - - d/f`\
      untracked symlink - always - - - d/l`\
      untracked symlink - always - - - l";

/// Cases of rules.
pub const RULES: &[u8] = b"\
@ the rule that decided``
  file`/w/.gitignore`*.o\n!k.o
  file`/w/a.o
  file`/w/k.o
  ask`options`shown
  walk`/w`/w`1`3`\
      untracked file - always - - - .gitignore`\
      ignored file - always - - 0:1:+ a.o`\
      untracked file - always - - 0:2:! k.o
@ a rule for a directory`/a/
  file`/w/a/f
  ask`options`shown
  walk`/w`/w`1`1`ignored directory - always - - globals:1:+ a
@ what is lifted below an ignored directory``
  file`/w/.gitignore`build/
  file`/w/build/.gitignore`!sub/
  file`/w/build/sub/x
  file`/w/build/y
  ask`options`nonbare shown
  walk`/w`/w`3`4`\
      untracked file - always - - - .gitignore`\
      ignored file - always - - 0:1:+ build/.gitignore`\
      untracked file - always - - 1:1:! build/sub/x`\
      ignored file - always - - 0:1:+ build/y
@ what strict parents do not lift``strict
  file`/w/.gitignore`build/
  file`/w/build/.gitignore`!sub/
  file`/w/build/sub/x
  file`/w/build/y
  ask`options`nonbare shown
  walk`/w`/w`3`4`\
      untracked file - always - - - .gitignore`\
      ignored file - always - - 0:1:+ build/.gitignore`\
      ignored file - always - - 0:1:+ build/sub/x`\
      ignored file - always - - 0:1:+ build/y";

/// Cases of delegates. A step `give` names a delegate that looks into directories `always`, `never`
/// or `in turn`, that looks into the worktree root and `only d` below it, or that answers Break at
/// an entry, as at `break 2`; where there are fewer it answers none.
///
/// What is broken off has met what came before: within a fold what was merged, and for what is
/// handed up at the end all.
///
/// Of the delegate that looks `only d`: from the worktree root on, two directories are read, that
/// and `d`; what is met is the file in `d`, and by themselves `d/d` and `e`, which have other
/// paths. From `e/d` on nothing is read, and that directory is all that is met. Were it asked about
/// another path than that of the entry, about none or the last name alone, it would look into more.
pub const DELEGATES: &[u8] = b"\
@ a usual checkout``
  git`/w/.git
  git`/w/.git/modules/lib
  file`/w/.gitignore`target/
  file`/w/.gitmodules
  file`/w/src/main.c
  file`/w/lib/.git`gitdir: ../.git/modules/lib
  file`/w/target/x.o
  file`/w/notes/a
  file`/w/notes/b
  index`.gitignore`file
  index`.gitmodules`file
  index`lib`commit
  index`src/main.c`file
  ask`options`folding shown-folded
  give`always`/w`/w`5`10`\
      untracked directory - always - - - notes`\
      ignored directory - always - - 0:1:+ target
  give`never`/w`/w`0`1`untracked directory - always - - - 
@ two files in a directory`-
  file`/w/d/a
  file`/w/d/b
  give`break 1`/w`/w`2`1`untracked file - always - - - d/a
@ directories`-
  file`/w/d/a
  file`/w/d/b
  file`/w/e/c
  file`/w/f/g
  give`in turn`/w`/w`2`3`\
      untracked directory - always - - - d`\
      untracked file - always - - - e/c`\
      untracked directory - always - - - f
  give`break 1`/w`/w`2`1`untracked file - always - - - d/a
  give`break 2`/w`/w`2`2`untracked file - always - - - d/a`untracked file - always - - - d/b
  give`break 4`/w`/w`4`4`\
      untracked file - always - - - d/a`\
      untracked file - always - - - d/b`\
      untracked file - always - - - e/c`\
      untracked file - always - - - f/g
  give`break 5`/w`/w`4`4`\
      untracked file - always - - - d/a`\
      untracked file - always - - - d/b`\
      untracked file - always - - - e/c`\
      untracked file - always - - - f/g
  ask`root`d/a
  give`break 1`/w`/w/d/a`0`1`untracked file - always - - - d/a
@ broken off within a fold`*.o
  file`/w/d/a
  file`/w/d/b.o
  ask`options`folding shown within-unlike
  give`break 1`/w`/w`2`2`ignored file - always - untracked globals:1:+ d/b.o
  give`break 2`/w`/w`2`3`\
      untracked directory - always - - - d`\
      ignored file - always - untracked globals:1:+ d/b.o
@ broken off at what is handed up at the end`-
  file`/w/d/a
  file`/w/d/b
  ask`root`d
  ask`options`folding
  give`break 1`/w`/w/d`1`3`untracked directory - always - - - d
@ a worktree of its own that is a file`-
  file`/w/x
  ask`worktree`x
  give`always`/w`no directory`/w/x
@ a path among others`-
  file`/w/d/a
  file`/w/d/d/b
  file`/w/e/d/c
  give`only d`/w`/w`2`3`\
      untracked file - always - - - d/a`\
      untracked directory - always - - - d/d`\
      untracked directory - always - - - e
  ask`root`e/d
  give`only d`/w`/w/e/d`0`1`untracked directory - always - - - e/d";
