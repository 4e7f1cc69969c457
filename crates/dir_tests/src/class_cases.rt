//! The cases of classes, each behind an `@`, each step on a line of its own.

/// A step `class` names a path, what is known of its kind (`ask`: nothing,
/// and the worktree may be asked; `none`: nothing, and it may not), and the class: status,
/// property, the kind on disk, that in the index, and how path specs match where they do not mean
/// all paths; or it names a rules file and why it was refused. A step `ask` says with which
/// options, path specs and worktrees of their own the classes that follow are asked.
pub const CASES: &[u8] = b"\
@ nodes that the index does not have`-
  file`/w/plain
  link`/w/link`plain
  other`/w/pipe
  directory`/w/dir/.git
  file`/w/dir/in
  class`plain`ask`untracked`-`file`-
  class`link`ask`untracked`-`symlink`-
  class`pipe`ask`untracked`-`untrackable`-
  class`dir`ask`untracked`-`directory`-
  class`dir/in`ask`untracked`-`file`-
  class`.git`ask`pruned`dot-git`-`-
  class`dir/.git`ask`pruned`dot-git`-`-
  class`nothing`ask`tracked`-`-`-
  class`a.git`ask`tracked`-`-`-
  faults`0
@ nodes of the index`-
  file`/w/tracked
  file`/w/tracked.dir/in
  file`/w/was.file/in
  file`/w/was.dir
  file`/w/module/in
  index`gone`file
  index`gone.vouched`link`valid
  index`module`commit
  index`tracked`file
  index`tracked.dir/in`file
  index`was.dir/in`file
  index`was.file`file
  class`tracked`ask`tracked`-`file`file
  class`tracked.dir`ask`tracked`-`directory`directory
  class`was.file`ask`untracked`-`directory`file
  class`was.dir`ask`untracked`-`file`directory
  class`module`ask`tracked`-`directory`repository
  class`gone`ask`untracked`-`-`file
  class`gone.vouched`ask`tracked`-`symlink`symlink
  faults`0
@ a sparse checkout`-
  file`/w/skipped/in
  index`skipped/in`file`skipped
  index`skipped/on`file`skipped
  index`sparse/`tree
  class`skipped`ask`pruned`sparse`directory`directory
  class`sparse`ask`pruned`sparse`-`directory
@ where a kind comes from`-
  file`/w/plain
  file`/w/vouched/in
  index`vouched`commit`up to date
  fail`kind`1
  class`vouched`file`tracked`-`repository`repository
  class`plain`symlink`untracked`-`symlink`-
  class`plain`none`tracked`-`-`-
  class`plain`ask`tracked`-`-`-
  class`plain`ask`untracked`-`file`-
  faults`1
@ the worktree root`-
  directory`/w
  link`/l`w
  root`/w``whole `untracked`-`directory`-
  root`/``whole `untracked`-`directory`-
  root`/l``whole `untracked`-`symlink`-
  root`/x``whole `tracked`-`-`-
@ rules of directories and of globals`?*\n!pipe\n!dir\n$link\n!/plain/\n
  file`/w/plain
  link`/w/link`plain
  other`/w/pipe
  directory`/w/dir/.git
  file`/w/dir/in
  file`/w/dir/.gitignore`!in\n
  file`/w/tracked
  file`/w/was.file/in
  index`skipped/in`file`skipped
  index`skipped/on`file`skipped
  index`tracked`file
  index`was.file`file
  class`plain`ask`ignored`-`file`-
  class`link`ask`precious`-`symlink`-
  class`pipe`ask`untracked`-`untrackable`-
  class`dir`ask`untracked`-`directory`-
  class`dir/in`ask`untracked`-`file`-
  class`dir/.git`ask`pruned`dot-git`-`-
  class`tracked`ask`tracked`-`file`file
  class`was.file`ask`ignored`-`directory`file
  class`was.file/in`ask`ignored`-`file`-
  class`skipped`none`pruned`sparse`-`directory
@ a rule for directories`d/\n
  class`d`directory`ignored`-`directory`-
  class`d`repository`ignored`-`repository`-
  class`d`file`untracked`-`file`-
@ a refused rules file`
  other`/w/dir/.gitignore
  file`/w/dir/in
  file`/w/tracked
  index`tracked`file
  class`dir`ask`untracked`-`directory`-
  class`tracked`ask`tracked`-`file`file
  class`dir/.git`ask`pruned`dot-git`-`-
  class`dir/in`ask`special`/w/dir/.gitignore
@ a sparse checkout on disk`-
  file`/w/d/f
  file`/w/skipped
  index`d/`tree
  index`skipped/in`file`skipped
  index`skipped/on`file`skipped
  class`d`ask`pruned`sparse`directory`directory
  class`d/f`ask`untracked`-`file`-
  class`skipped`ask`pruned`sparse`file`directory
@ letters without their case`-
  file`/w/d/t
  file`/w/x/.Git
  index`D/t`file
  class`d/t`ask`untracked`-`file`-
  class`d`ask`untracked`-`directory`-
  class`x/.Git`ask`untracked`-`file`-
  ask`options`folded
  class`d/t`ask`tracked`-`file`file
  class`d`ask`tracked`-`directory`directory
  class`x/.Git`ask`pruned`dot-git`-`-
@ a repository that is to be deleted`.git\n
  directory`/w/d/.git
  class`d/.git`directory`pruned`dot-git`directory`-
  ask`options`nonbare
  class`d/.git`directory`ignored`dot-git`directory`-
  class`.git`directory`pruned`dot-git`directory`-
  class`d/.git`ask`ignored`dot-git`-`-
  ask`options`hide
  class`d/.git`file`ignored`dot-git`file`-
@ path specs`-
  file`/w/x
  file`/w/y
  file`/w/d/a1
  file`/w/d/b
  file`/w/e/f
  ask`specs`:!x
  class`x`ask`untracked`-`file`-`excluded
  class`y`ask`untracked`-`file`-
  ask`specs`d/a*
  class`d/a1`ask`untracked`-`file`-`wildcard
  class`d/b`ask`pruned`-`file`-`-
  class`d`ask`untracked`-`directory`-`-
  class`e`ask`pruned`-`-`-`-
  class`e`directory`pruned`-`directory`-`-
  class`e/.git`ask`pruned`dot-git`-`-`-
  ask`specs`d x
  class`d`ask`untracked`-`directory`-`verbatim
  class`d/b`ask`untracked`-`file`-`prefix
  class`x`ask`untracked`-`file`-`verbatim
  class`d/.git`ask`pruned`dot-git`-`-`prefix
  ask`specs`d :!d/b
  class`d/b`ask`untracked`-`file`-`excluded
  index`d/b`file
  class`d/b`ask`tracked`-`file`file`excluded
  ask`specs`d/a*
  class`d/b`ask`tracked`-`file`file`-
@ links that count as what they lead to`l/\nn/\nf/\n
  file`/w/dir/g
  link`/w/l`dir
  link`/w/n`gone
  link`/w/f`dir/g
  class`l`ask`untracked`-`symlink`-
  ask`options`followed
  class`l`ask`ignored`-`symlink`-
  class`n`ask`untracked`-`symlink`-
  class`f`ask`untracked`-`symlink`-
  class`l`file`untracked`-`file`-
  faults`0
@ a link whose target could not be learnt`l/\n
  file`/w/dir/g
  link`/w/l`dir
  ask`options`followed
  fail`kind following`1
  class`l`ask`untracked`-`symlink`-
  class`l`ask`ignored`-`symlink`-
  faults`1";

/// The same, on repositories. A step `git` makes a git directory, and a step `upgrade` says as what
/// a directory is then seen.
pub const REPOSITORIES: &[u8] = b"\
@ directories with a git directory`-
  git`/w/.git
  git`/w/d/r/.git
  file`/w/d/r/f
  git`/w/m/.git
  directory`/w/e/.git
  index`m`commit
  class``ask`untracked`-`directory`-
  class`d`ask`untracked`-`directory`-
  class`d/r`ask`untracked`-`repository`-
  class`d/r/f`ask`untracked`-`file`-
  class`e`ask`untracked`-`directory`-
  class`m`ask`tracked`-`repository`repository
  ask`options`recursing
  class`d/r`ask`untracked`-`directory`-
  class`m`ask`tracked`-`directory`repository
  faults`0
@ files that name a git directory`-
  git`/w/.git
  git`/w/.git/modules/lib
  git`/g
  file`/w/lib/.git`gitdir: ../.git/modules/lib\n
  file`/w/far/.git`gitdir: /g\r\n
  file`/w/lost/.git`gitdir: ../gone\n
  file`/w/none/.git`gitdir: \n
  index`lib`commit
  class`lib`ask`tracked`-`repository`repository
  class`far`ask`untracked`-`repository`-
  class`lost`ask`untracked`-`directory`-
  class`none`ask`untracked`-`directory`-
@ the own repository`-
  git`/w/.git
  git`/w/d/.git
  link`/w/own/.git`../.git
  link`/w/other/.git`../d/.git
  class`own`ask`untracked`-`directory`-
  class`other`ask`untracked`-`repository`-
  index`own`commit
  class`own`ask`tracked`-`directory`repository
  upgrade`/w/own`softly`directory
  upgrade`/w/.git`hard`directory
@ bare repositories`-
  git`/w/b
  file`/w/c/HEAD`ref: refs/heads/main
  directory`/w/c/objects
  class`b`ask`untracked`-`directory`-
  ask`options`bare
  class`b`ask`untracked`-`repository`-
  class`c`ask`untracked`-`directory`-
  upgrade`/w/b`hard`repository
  upgrade`/w/b`softly`directory
@ a fault as no repository`-
  git`/w/r/.git
  fail`read`1
  class`r`ask`untracked`-`directory`-
  class`r`ask`untracked`-`repository`-
  faults`1
@ a failed look as no repository`-
  git`/w/r/.git
  fail`kind following`1
  class`r`ask`untracked`-`directory`-
  class`r`ask`untracked`-`repository`-
  faults`1
@ a failed look hides one of two repositories`-
  git`/w/b
  git`/w/b/.git
  ask`options`bare
  fail`kind following`1
  class`b`ask`untracked`-`repository`-
  faults`1
@ a fault as another repository`-
  git`/w/.git
  link`/w/own/.git`../.git
  fail`real path`1
  class`own`ask`untracked`-`repository`-
  class`own`ask`untracked`-`directory`-
  faults`1
@ a fault in deletion`build/\n
  git`/w/build/.git
  ask`options`shown nonbare
  fail`real path`1
  class`build`ask`ignored`-`repository`-
  faults`1
@ worktrees of their own`wt/\n
  file`/w/wt/f
  file`/w/in/f
  index`in/f`file
  ask`worktree`wt
  ask`worktree`in
  class`wt`ask`tracked`-`repository`-
  class`wt`none`tracked`-`repository`-
  class`in`ask`tracked`-`repository`-
  class`wt/f`ask`ignored`-`file`-
  class`in/f`ask`tracked`-`file`file
@ ignored directories in deletion`build/\nbare/\n
  git`/w/build/.git
  git`/w/bare
  class`build`ask`ignored`-`directory`-
  ask`options`shown nonbare
  class`build`ask`ignored`-`repository`-
  class`bare`ask`ignored`-`directory`-
  ask`options`shown all
  class`bare`ask`ignored`-`repository`-
  ask`options`shown hide
  class`build`ask`ignored`-`directory`-
  ask`options`nonbare
  class`build`ask`ignored`-`directory`-
  ask`options`shown nonbare recursing
  class`build`ask`ignored`-`directory`-
@ ignored directories above what is looked for`build/\n
  file`/w/build/x/y
  ask`options`shown
  class`build`ask`ignored`-`directory`-
  ask`specs`build/x
  class`build`ask`ignored`-`directory`-`prefix
  class`build/x`ask`ignored`-`directory`-`verbatim
  class`build/x/y`ask`ignored`-`file`-`prefix
  ask`options`
  class`build`ask`ignored`-`directory`-`-
  ask`specs`:
  ask`worktree`build/wt
  ask`options`shown hide
  class`build`ask`ignored`-`directory`-`prefix
  ask`options`shown
  class`build`ask`ignored`-`directory`-";

/// Cases of ways. A step `root` names a worktree root, a path below it, and where the way to it
/// ends, with the class there; a step `rules asked` says about how many paths the rules were asked
/// so far.
pub const WAYS: &[u8] = b"\
@ ways through directories`-
  git`/w/.git
  git`/w/d/r/.git
  file`/w/d/r/x/f
  file`/w/a
  link`/w/l`d
  root`/w`d/r/x`part d/r`untracked`-`repository`-
  root`/w`d`whole d`untracked`-`directory`-
  root`/w`a`whole a`untracked`-`file`-
  root`/w`a/x`part a`untracked`-`file`-
  root`/w`l/r`part l`untracked`-`symlink`-
  root`/w`d/x/y`part d/x`tracked`-`-`-
  ask`options`recursing
  root`/w`d/r/x/f`whole d/r/x/f`untracked`-`file`-
@ ways in a repository`-
  git`/r/.git
  git`/r/s/.git
  file`/r/s/f
  root`/r``whole `untracked`-`repository`-
  root`/r`s/f`whole s/f`untracked`-`file`-
@ ways through ignored directories`build/\n
  file`/w/build/x/y
  root`/w`build/x`part build`ignored`-`directory`-
  ask`specs`build/x
  root`/w`build/x`part build`ignored`-`directory`-`-
  ask`options`shown
  root`/w`build/x`whole build/x`ignored`-`directory`-`verbatim
  ask`options`nonbare
  root`/w`build/x`whole build/x`ignored`-`directory`-`verbatim
  ask`options`hide
  root`/w`build/x`part build`ignored`-`directory`-`-
@ ways that ask rules`none\n
  file`/w/a/f
  file`/w/a/b/c/g
  index`a/f`file
  root`/w`a`whole a`tracked`-`directory`directory
  rules asked`0
  root`/w`a/b/c`whole a/b/c`untracked`-`directory`-
  rules asked`2
  root`/w`a/b/c`whole a/b/c`untracked`-`directory`-
  rules asked`4
@ a failed look on the way`-
  git`/w/d/.git
  file`/w/d/f
  fail`kind following`2
  root`/w`d/f`whole d/f`untracked`-`file`-
  faults`1";
