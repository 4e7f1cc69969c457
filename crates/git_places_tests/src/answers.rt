//! Where git finds work trees and their repositories; made by `scripts/ask-git-places` with git version 2.39.5.
//!
//! A row has the answer, the directory, the ceilings or `-`, and the steps by which the tree is
//! made, with `~` in the place of each LF. An answer has `found`, whether a configuration of the
//! work tree is read, or `-` where nothing tells, the top of the work tree, its git directory and
//! the common one; or in words why git refuses.

/// The places of directories.
pub const ANSWERS: &[u8] = b"\
no-repository^/w/r/a/b^-^d /w/r/a/b\n\
no-repository^/w^-^d /w\n\
found - /w/r /w/r/.git /w/r/.git^/w/r^-^g /w/r/.git;d /w/r/a/b\n\
found - /w/r /w/r/.git /w/r/.git^/w/r/a^-^g /w/r/.git;d /w/r/a/b\n\
found - /w/r /w/r/.git /w/r/.git^/w/r/a/b^-^g /w/r/.git;d /w/r/a/b\n\
no-repository^/w^-^g /w/r/.git;d /w/r/a/b\n\
found - /w/r /w/r/.git /w/r/.git^/w/r/a/b^-^g /w/r/.git;d /w/r/a/b;f /w/r/.git/config=[core]~repositoryformatversion=0~\n\
found - /w/r /w/r/.git /w/r/.git^/w/r/a/b^-^g /w/r/.git;d /w/r/a/b;f /w/r/.git/config=[core]~repositoryformatversion=0~bare=false~\n\
found - /w/r /w/r/.git /w/r/.git^/w/r/a/b^-^g /w/r/.git;d /w/r/a/b;f /w/r/.git/config=[core]~repositoryformatversion=1~\n\
found - /w/r /w/r/.git /w/r/.git^/w/r^-^g /w/r/.git;f /w/r/.git/config=\n\
found - /w/r /w/r/.git /w/r/.git^/w/r/a/b^-^g /w/.git;d /w/r/a/b;g /w/r/.git\n\
found - /w/r/a/b /w/r/a/b/.git /w/r/a/b/.git^/w/r/a/b^-^g /w/.git;d /w/r/a/b;g /w/r/a/b/.git;g /w/r/.git\n\
found - /w/r /w/r/.git /w/r/.git^/w/r/a^-^g /w/.git;d /w/r/a/b;g /w/r/a/b/.git;g /w/r/.git\n\
found - /w /w/.git /w/.git^/w/r^-^g /w/.git;d /w/r/a/b;g /w/r/a/b/.git\n\
found - /w /w/.git /w/.git^/w/r/a/b^-^g /w/.git;d /w/r/a/b;d /w/r/.git\n\
found - /w /w/.git /w/.git^/w/r/a/b^-^g /w/.git;d /w/r/a/b;d /w/r/.git/objects;d /w/r/.git/refs\n\
found - /w /w/.git /w/.git^/w/r/a/b^-^g /w/.git;d /w/r/a/b;d /w/r/.git/objects;f /w/r/.git/HEAD=ref: refs/heads/x~\n\
found - /w /w/.git /w/.git^/w/r/a/b^-^g /w/.git;d /w/r/a/b;d /w/r/.git/refs;f /w/r/.git/HEAD=ref: refs/heads/x~\n\
found - /w /w/.git /w/.git^/w/r/a/b^-^g /w/.git;d /w/r/a/b;o /w/r/.git\n\
found - /w /w/.git /w/.git^/w/r/a/b^-^g /w/.git;d /w/r/a/b;l /w/r/.git=nowhere\n\
found - /w /w/.git /w/.git^/w/r/a/b^-^g /w/.git;d /w/r/a/b;l /w/r/.git=.git\n\
found - /w /w/.git /w/.git^/w/r/a/b^-^g /w/.git;d /w/r/a/b;l /w/r/.git=../r/a\n\
no-repository^/w/r/a/b^-^d /w/r/a/b;d /w/r/.git\n\
found - /w/r /w/r/.git /w/r/.git^/w/r/a/b^-^g /w/.git;d /w/r/a/b;d /w/r/.git/objects;d /w/r/.git/refs;f /w/r/.git/HEAD=ref: refs/heads/x~\n\
found - /w/r /w/r/.git /w/r/.git^/w/r/a/b^-^g /w/.git;d /w/r/a/b;d /w/r/.git/objects;d /w/r/.git/refs;f /w/r/.git/HEAD=ref: refs/heads/x\n\
found - /w/r /w/r/.git /w/r/.git^/w/r/a/b^-^g /w/.git;d /w/r/a/b;d /w/r/.git/objects;d /w/r/.git/refs;f /w/r/.git/HEAD=ref:  refs/x~\n\
found - /w/r /w/r/.git /w/r/.git^/w/r/a/b^-^g /w/.git;d /w/r/a/b;d /w/r/.git/objects;d /w/r/.git/refs;f /w/r/.git/HEAD=a1a1a1a1a1a1a1a1a1a1a1a1a1a1a1a1a1a1a1a1~\n\
found - /w /w/.git /w/.git^/w/r/a/b^-^g /w/.git;d /w/r/a/b;d /w/r/.git/objects;d /w/r/.git/refs;f /w/r/.git/HEAD=a1a1a1a1a1a1a1a1a1a1a1a1a1a1a1a1a1a1a1~\n\
found - /w /w/.git /w/.git^/w/r/a/b^-^g /w/.git;d /w/r/a/b;d /w/r/.git/objects;d /w/r/.git/refs;f /w/r/.git/HEAD=\n\
found - /w /w/.git /w/.git^/w/r/a/b^-^g /w/.git;d /w/r/a/b;d /w/r/.git/objects;d /w/r/.git/refs;f /w/r/.git/HEAD=x~\n\
found - /w /w/.git /w/.git^/w/r/a/b^-^g /w/.git;d /w/r/a/b;d /w/r/.git/objects;d /w/r/.git/refs;d /w/r/.git/HEAD\n\
found - /w/r /w/r/.git /w/r/.git^/w/r/a/b^-^g /w/.git;d /w/r/a/b;d /w/r/.git/objects;d /w/r/.git/refs;f /w/r/.git/HEAD=ref:  refs/heads/x~\n\
found - /w/r /w/r/.git /w/r/.git^/w/r/a/b^-^g /w/.git;d /w/r/a/b;d /w/r/.git/objects;d /w/r/.git/refs;f /w/r/.git/HEAD=ref: \trefs/heads/x\n\
found - /w/r /w/r/.git /w/r/.git^/w/r/a/b^-^g /w/.git;d /w/r/a/b;d /w/r/.git/objects;d /w/r/.git/refs;f /w/r/.git/HEAD=ref: refs/\n\
found - /w/r /w/r/.git /w/r/.git^/w/r/a/b^-^g /w/.git;d /w/r/a/b;d /w/r/.git/objects;d /w/r/.git/refs;f /w/r/.git/HEAD=A1A1A1A1A1A1A1A1A1A1A1A1A1A1A1A1A1A1A1A1~\n\
found - /w/r /w/r/.git /w/r/.git^/w/r/a/b^-^g /w/.git;d /w/r/a/b;d /w/r/.git/objects;d /w/r/.git/refs;f /w/r/.git/HEAD=a1a1a1a1a1a1a1a1a1a1a1a1a1a1a1a1a1a1a1a1a1a1a1a1a1a1a1a1a1a1a1a1~\n\
found - /w/r /w/r/.git /w/r/.git^/w/r/a/b^-^g /w/.git;d /w/r/a/b;d /w/r/.git/objects;d /w/r/.git/refs;f /w/r/.git/HEAD=ref: refs/heads/x\r~\n\
found - /w/r /w/r/.git /w/r/.git^/w/r/a/b^-^g /w/.git;d /w/r/a/b;d /w/r/.git/objects;d /w/r/.git/refs;f /w/r/.git/HEAD=ref:                                                                                                                                                                                                                                                      refs/~\n\
found - /w /w/.git /w/.git^/w/r/a/b^-^g /w/.git;d /w/r/a/b;d /w/r/.git/objects;d /w/r/.git/refs;f /w/r/.git/HEAD=ref:~\n\
found - /w /w/.git /w/.git^/w/r/a/b^-^g /w/.git;d /w/r/a/b;d /w/r/.git/objects;d /w/r/.git/refs;f /w/r/.git/HEAD=ref:\n\
found - /w /w/.git /w/.git^/w/r/a/b^-^g /w/.git;d /w/r/a/b;d /w/r/.git/objects;d /w/r/.git/refs;f /w/r/.git/HEAD=ref: \n\
found - /w /w/.git /w/.git^/w/r/a/b^-^g /w/.git;d /w/r/a/b;d /w/r/.git/objects;d /w/r/.git/refs;f /w/r/.git/HEAD=ref: ~\n\
found - /w /w/.git /w/.git^/w/r/a/b^-^g /w/.git;d /w/r/a/b;d /w/r/.git/objects;d /w/r/.git/refs;f /w/r/.git/HEAD=Ref: refs/heads/x~\n\
found - /w /w/.git /w/.git^/w/r/a/b^-^g /w/.git;d /w/r/a/b;d /w/r/.git/objects;d /w/r/.git/refs;f /w/r/.git/HEAD= ref: refs/heads/x~\n\
found - /w /w/.git /w/.git^/w/r/a/b^-^g /w/.git;d /w/r/a/b;d /w/r/.git/objects;d /w/r/.git/refs;f /w/r/.git/HEAD=a1a1a1a1a1a1a1a1a1a1a1a1a1a1a1a1a1a1a1g1~\n\
found - /w /w/.git /w/.git^/w/r/a/b^-^g /w/.git;d /w/r/a/b;d /w/r/.git/objects;d /w/r/.git/refs;f /w/r/.git/HEAD=a1a1a1a1a1a1a1a1a1a1a1a1a1a1a1a1a1a1~\n\
found - /w /w/.git /w/.git^/w/r/a/b^-^g /w/.git;d /w/r/a/b;d /w/r/.git/objects;d /w/r/.git/refs;f /w/r/.git/HEAD=~a1a1a1a1a1a1a1a1a1a1a1a1a1a1a1a1a1a1a1a1~\n\
found - /w /w/.git /w/.git^/w/r/a/b^-^g /w/.git;d /w/r/a/b;d /w/r/.git/objects;d /w/r/.git/refs;f /w/r/.git/HEAD=ref:foo~\n\
found - /w /w/.git /w/.git^/w/r/a/b^-^g /w/.git;d /w/r/a/b;f /w/r/.git/HEAD=ref: foo~\n\
found - /w /w/.git /w/.git^/w/r/a/b^-^g /w/.git;d /w/r/a/b;f /w/r/.git/HEAD=ref:refs/heads/x~\n\
found - /w /w/.git /w/.git^/w/r/a/b^-^g /w/.git;d /w/r/a/b;d /w/r/.git/refs;l /w/r/.git/HEAD=refs/heads/x\n\
found - /w /w/.git /w/.git^/w/r/a/b^-^g /w/.git;d /w/r/a/b;f /w/r/.git/HEAD=ref: refs/heads/x~;d /w/r/.git/refs;f /w/r/.git/objects=x\n\
found - /w /w/.git /w/.git^/w/r/a/b^-^g /w/.git;d /w/r/a/b;f /w/r/.git/HEAD=ref: refs/heads/x~;d /w/r/.git/objects;f /w/r/.git/refs=x\n\
found - /w/r /w/r/.git /w/r/.git^/w/r/a/b^-^g /w/.git;d /w/r/a/b;f /w/r/.git/HEAD=ref: refs/heads/x~;d /w/o;d /w/p;l /w/r/.git/objects=../../o;l /w/r/.git/refs=/w/p\n\
found - /w /w/.git /w/.git^/w/r/a/b^-^g /w/.git;d /w/r/a/b;f /w/r/.git/HEAD=ref: refs/heads/x~;d /w/o;d /w/r/.git/refs;l /w/r/.git/objects=../o\n\
found - /w/r /w/g /w/g^/w/r/a/b^-^g /w/.git;d /w/r/a/b;g /w/g;l /w/r/.git=../g\n\
found - /w/r /w/g /w/g^/w/r/a/b^-^g /w/.git;d /w/r/a/b;g /w/g;l /w/r/.git=/w/g\n\
found - /w/r /w/g /w/g^/w/r/a/b^-^g /w/.git;d /w/r/a/b;g /w/g;l /w/h=g;l /w/r/.git=../h\n\
found - /w/r/a /w/g /w/g^/w/r/a/b^-^d /w/r/a/b;g /w/g;l /w/r/.git=../g;f /w/g/config=[core]~repositoryformatversion=0~worktree=../r/a~\n\
found - /w/r /w/r/h /w/r/h^/w/r^-^d /w/r;f /w/g=gitdir: h~;l /w/r/.git=../g;g /w/r/h\n\
found - /w/r /w/g /w/g^/w/r/a/b^-^g /w/.git;d /w/r/a/b;g /w/g;f /w/r/.git=gitdir: ../g~\n\
found - /w/r /w/g /w/g^/w/r/a/b^-^g /w/.git;d /w/r/a/b;g /w/g;f /w/r/.git=gitdir: ../g\n\
found - /w/r /w/g /w/g^/w/r/a/b^-^g /w/.git;d /w/r/a/b;g /w/g;f /w/r/.git=gitdir: ../g\r~\n\
found - /w/r /w/g /w/g^/w/r/a/b^-^g /w/.git;d /w/r/a/b;g /w/g;f /w/r/.git=gitdir: ../g~~\r~\n\
found - /w/r /w/g /w/g^/w/r/a/b^-^g /w/.git;d /w/r/a/b;g /w/g;f /w/r/.git=gitdir: /w/g~\n\
found - /w/r /w/g /w/g^/w/r/a/b^-^g /w/.git;d /w/r/a/b;g /w/g;f /w/r/.git=gitdir: /w/r/a/../../g~\n\
found - /w/r /w/g /w/g^/w/r/a/b^-^g /w/.git;d /w/r/a/b;g /w/g;f /w/r/.git=gitdir: ../g/~\n\
found - /w/r /w/g /w/g^/w/r/a/b^-^g /w/.git;d /w/r/a/b;g /w/g;l /w/h=g;f /w/r/.git=gitdir: ../h~\n\
found - /w/r /w/r/g /w/r/g^/w/r/a/b^-^g /w/.git;d /w/r/a/b;g /w/r/g;f /w/r/.git=gitdir: ./g~\n\
found - /w/r /w/r/g h /w/r/g h^/w/r/a/b^-^g /w/.git;d /w/r/a/b;g /w/r/g h;f /w/r/.git=gitdir: g h~\n\
found - /w/r /w/r/g  /w/r/g ^/w/r/a/b^-^g /w/.git;d /w/r/a/b;g /w/r/g ;f /w/r/.git=gitdir: g ~\n\
found - /w/r /w/g /w/g^/w/r^-^g /w/g;f /w/r/.git=gitdir: ../g~\n\
found - /w/r /w/g /w/g^/w/r^-^g /w/g;f /w/g/config=[core]~repositoryformatversion=0~;f /w/r/.git=gitdir: ../g~\n\
git-file-form^/w/r/a/b^-^g /w/.git;d /w/r/a/b;f /w/r/.git=\n\
git-file-form^/w/r/a/b^-^g /w/.git;d /w/r/a/b;f /w/r/.git=x~\n\
git-file-form^/w/r/a/b^-^g /w/.git;d /w/r/a/b;f /w/r/.git=gitdir\n\
git-file-form^/w/r/a/b^-^g /w/.git;d /w/r/a/b;f /w/r/.git=gitdir:~\n\
git-file-form^/w/r/a/b^-^g /w/.git;d /w/r/a/b;f /w/r/.git=gitdir: ~\n\
git-file-form^/w/r/a/b^-^g /w/.git;d /w/r/a/b;g /w/r/g;f /w/r/.git=gitdir:g~\n\
git-file-form^/w/r/a/b^-^g /w/.git;d /w/r/a/b;g /w/r/g;f /w/r/.git=Gitdir: g~\n\
git-file-form^/w/r/a/b^-^g /w/.git;d /w/r/a/b;g /w/r/g;f /w/r/.git= gitdir: g~\n\
git-file-target^/w/r/a/b^-^g /w/.git;d /w/r/a/b;g /w/r/g;f /w/r/.git=gitdir:  g~\n\
git-file-target^/w/r/a/b^-^g /w/.git;d /w/r/a/b;g /w/r/g;f /w/r/.git=gitdir: g ~\n\
git-file-target^/w/r/a/b^-^g /w/.git;d /w/r/a/b;g /w/r/g;f /w/r/.git=gitdir: g~x~\n\
git-file-target^/w/r/a/b^-^g /w/.git;d /w/r/a/b;f /w/r/.git=gitdir: nowhere~\n\
git-file-target^/w/r/a/b^-^g /w/.git;d /w/r/a/b;f /w/r/.git=gitdir: /w/nowhere~\n\
git-file-target^/w/r/a/b^-^g /w/.git;d /w/r/a/b;d /w/r/g;f /w/r/.git=gitdir: g~\n\
git-file-target^/w/r/a/b^-^g /w/.git;d /w/r/a/b;g /w/r/h;f /w/r/g=gitdir: h~;f /w/r/.git=gitdir: g~\n\
git-file-target^/w/r/a/b^-^g /w/.git;d /w/r/a/b;f /w/r/.git=gitdir: .git~\n\
git-file-target^/w/r/a/b^-^g /w/.git;d /w/r/a/b;d /w/s;f /w/r/.git=gitdir: ../s/.git~;f /w/s/.git=gitdir: ../r/.git~\n\
found - /w /w/.git /w/.git^/w/r/a/b^-^g /w/.git;d /w/r/a/b;d /w/s;l /w/r/.git=../s/.git;l /w/s/.git=../r/.git\n\
git-file-target^/w/r/a/b^-^g /w/.git;d /w/r/a/b;l /w/r/.git=a/.git;f /w/r/a/.git=gitdir: ../.git~\n\
git-file-target^/w/r/a/b^-^g /w/.git;d /w/r/a/b;g /w/r/.git;f /w/r/a/.git=gitdir: nowhere~\n\
git-file-target^/w/r^-^g /w/.git;d /w/r/a/b;f /w/r/.git=gitdir: nowhere~\n\
git-file-target^/w/r^-^g /w/.git;d /w/r/a/b;f /w/x=gitdir: nowhere~;l /w/r/.git=../x\n\
git-file-target^/w/r/a/b^-^d /w/r/a/b;f /w/r/.git=gitdir: nowhere~\n\
found - /w/r/a /w/r/a/.git /w/r/a/.git^/w/r/a/b^-^g /w/.git;d /w/r/a/b;g /w/r/a/.git;f /w/r/.git=gitdir: nowhere~\n\
found - /w/t /w/m/.git/worktrees/t /w/m/.git^/w/t/a^-^g /w/m/.git;d /w/t/a;f /w/t/.git=gitdir: /w/m/.git/worktrees/t~;f /w/m/.git/worktrees/t/HEAD=ref: refs/heads/x~;f /w/m/.git/worktrees/t/commondir=../..~;f /w/m/.git/worktrees/t/gitdir=/w/t/.git~\n\
found - /w/t /w/m/.git/worktrees/t /w/m/.git/worktrees/u^/w/t/a^-^g /w/m/.git;d /w/t/a;f /w/t/.git=gitdir: /w/m/.git/worktrees/t~;f /w/m/.git/worktrees/t/HEAD=ref: refs/heads/x~;f /w/m/.git/worktrees/t/commondir=../u~;f /w/m/.git/worktrees/t/gitdir=/w/t/.git~;d /w/m/.git/worktrees/u/objects;d /w/m/.git/worktrees/u/refs;f /w/m/.git/worktrees/u/commondir=../..~\n\
found - /w/t /w/m/.git/worktrees/t /w/m/.git^/w/t^-^g /w/m/.git;d /w/t/a;f /w/t/.git=gitdir: /w/m/.git/worktrees/t~;f /w/m/.git/worktrees/t/HEAD=ref: refs/heads/x~;f /w/m/.git/worktrees/t/commondir=../..~;f /w/m/.git/worktrees/t/gitdir=/w/t/.git~;f /w/m/.git/config=[core]~repositoryformatversion=0~\n\
found - /w/t /w/m/.git/worktrees/t /w/m/.git^/w/t/a^-^g /w/m/.git;d /w/t/a;f /w/t/.git=gitdir: /w/m/.git/worktrees/t~;f /w/m/.git/worktrees/t/HEAD=ref: refs/heads/x~;f /w/m/.git/worktrees/t/commondir=../..~;f /w/m/.git/worktrees/t/gitdir=/w/t/.git~;f /w/m/.git/config=[core]~repositoryformatversion=0~bare=false~\n\
found - /w/t /w/m/.git/worktrees/t /w/m/.git^/w/t/a^-^g /w/m/.git;d /w/t/a;f /w/t/.git=gitdir: /w/m/.git/worktrees/t~;f /w/m/.git/worktrees/t/HEAD=ref: refs/heads/x~;f /w/m/.git/worktrees/t/commondir=../..~;f /w/m/.git/worktrees/t/gitdir=/w/t/.git~;f /w/m/.git/config=[core]~repositoryformatversion=0~bare=true~\n\
bare^/w/m^-^g /w/m/.git;d /w/t/a;f /w/t/.git=gitdir: /w/m/.git/worktrees/t~;f /w/m/.git/worktrees/t/HEAD=ref: refs/heads/x~;f /w/m/.git/worktrees/t/commondir=../..~;f /w/m/.git/worktrees/t/gitdir=/w/t/.git~;f /w/m/.git/config=[core]~repositoryformatversion=0~bare=true~\n\
found - /w/t /w/m/.git/worktrees/t /w/m/.git^/w/t^-^g /w/m/.git;d /w/t/a;f /w/t/.git=gitdir: /w/m/.git/worktrees/t~;f /w/m/.git/worktrees/t/HEAD=ref: refs/heads/x~;f /w/m/.git/worktrees/t/commondir=../..~;f /w/m/.git/worktrees/t/gitdir=/w/t/.git~;f /w/m/.git/config=[core]~repositoryformatversion=0~worktree=/w/m~\n\
found - /w/m /w/m/.git /w/m/.git^/w/m^-^g /w/m/.git;d /w/t/a;f /w/t/.git=gitdir: /w/m/.git/worktrees/t~;f /w/m/.git/worktrees/t/HEAD=ref: refs/heads/x~;f /w/m/.git/worktrees/t/commondir=../..~;f /w/m/.git/worktrees/t/gitdir=/w/t/.git~;f /w/m/.git/config=[core]~repositoryformatversion=0~\n\
version 2^/w/t^-^g /w/m/.git;d /w/t/a;f /w/t/.git=gitdir: /w/m/.git/worktrees/t~;f /w/m/.git/worktrees/t/HEAD=ref: refs/heads/x~;f /w/m/.git/worktrees/t/commondir=../..~;f /w/m/.git/worktrees/t/gitdir=/w/t/.git~;f /w/m/.git/config=[core]~repositoryformatversion=2~\n\
found - /w/t /w/m/.git/worktrees/t /w/m/.git^/w/t^-^g /w/m/.git;d /w/t/a;f /w/t/.git=gitdir: /w/m/.git/worktrees/t~;f /w/m/.git/worktrees/t/HEAD=ref: refs/heads/x~;f /w/m/.git/worktrees/t/commondir=../..;f /w/m/.git/worktrees/t/gitdir=/w/t/.git~;f /w/m/.git/config=[core]~repositoryformatversion=0~\n\
found - /w/t /w/m/.git/worktrees/t /w/m/.git^/w/t^-^g /w/m/.git;d /w/t/a;f /w/t/.git=gitdir: /w/m/.git/worktrees/t~;f /w/m/.git/worktrees/t/HEAD=ref: refs/heads/x~;f /w/m/.git/worktrees/t/commondir=/w/m/.git~;f /w/m/.git/worktrees/t/gitdir=/w/t/.git~;f /w/m/.git/config=[core]~repositoryformatversion=0~\n\
git-file-target^/w/t^-^g /w/m/.git;d /w/t/a;f /w/t/.git=gitdir: /w/m/.git/worktrees/t~;f /w/m/.git/worktrees/t/HEAD=ref: refs/heads/x~;f /w/m/.git/worktrees/t/gitdir=/w/t/.git~;f /w/m/.git/config=[core]~repositoryformatversion=0~\n\
bare^/w/m/.git/worktrees/t^-^g /w/m/.git;d /w/t/a;f /w/t/.git=gitdir: /w/m/.git/worktrees/t~;f /w/m/.git/worktrees/t/HEAD=ref: refs/heads/x~;f /w/m/.git/worktrees/t/commondir=../..~;f /w/m/.git/worktrees/t/gitdir=/w/t/.git~;f /w/m/.git/config=[core]~repositoryformatversion=0~\n\
found - /w/t /w/m.git/worktrees/t /w/m.git^/w/t/a^-^g /w/m.git;d /w/t/a;f /w/t/.git=gitdir: /w/m.git/worktrees/t~;f /w/m.git/worktrees/t/HEAD=ref: refs/heads/x~;f /w/m.git/worktrees/t/commondir=../..~;f /w/m.git/config=[core]~repositoryformatversion=0~bare=true~\n\
found - /w/r /w/r/.git /w/r/.git^/w/r^-^g /w/r/.git;d /w/r/a/b;f /w/r/.git/commondir=/w/r/.git~;f /w/r/.git/config=[core]~repositoryformatversion=0~bare=true~\n\
found - /w/r /w/r/.git /w/m^/w/r^-^g /w/m;f /w/r/.git/HEAD=ref: refs/heads/x~;f /w/r/.git/commondir=../../m~;f /w/m/config=[core]~repositoryformatversion=0~\n\
version 2^/w/r^-^g /w/m;f /w/r/.git/HEAD=ref: refs/heads/x~;f /w/r/.git/commondir=../../m~;f /w/m/config=[core]~repositoryformatversion=2~\n\
found - /w/t /w/m/.git/worktrees/t /w/m/.git^/w/t^-^g /w/m/.git;d /w/t/a;f /w/t/.git=gitdir: /w/m/.git/worktrees/t~;f /w/m/.git/worktrees/t/HEAD=ref: refs/heads/x~;f /w/m/.git/worktrees/t/commondir=../..\r~;f /w/m/.git/worktrees/t/gitdir=/w/t/.git~;f /w/m/.git/config=[core]~repositoryformatversion=0~\n\
found - /w/t /w/m/.git/worktrees/t /w/m/.git^/w/t^-^g /w/m/.git;d /w/t/a;f /w/t/.git=gitdir: /w/m/.git/worktrees/t~;f /w/m/.git/worktrees/t/HEAD=ref: refs/heads/x~;f /w/m/.git/worktrees/t/commondir=../..~~;f /w/m/.git/worktrees/t/gitdir=/w/t/.git~;f /w/m/.git/config=[core]~repositoryformatversion=0~\n\
found - /w/t /w/m/.git/worktrees/t /w/m/.git^/w/t^-^g /w/m/.git;d /w/t/a;f /w/t/.git=gitdir: /w/m/.git/worktrees/t~;f /w/m/.git/worktrees/t/HEAD=ref: refs/heads/x~;f /w/m/.git/worktrees/t/commondir=../../~;f /w/m/.git/worktrees/t/gitdir=/w/t/.git~;f /w/m/.git/config=[core]~repositoryformatversion=0~\n\
found - /w/t /w/m/.git/worktrees/t /w/m/.git^/w/t^-^g /w/m/.git;d /w/t/a;f /w/t/.git=gitdir: /w/m/.git/worktrees/t~;f /w/m/.git/worktrees/t/HEAD=ref: refs/heads/x~;f /w/m/.git/worktrees/t/commondir=./../..~;f /w/m/.git/worktrees/t/gitdir=/w/t/.git~;f /w/m/.git/config=[core]~repositoryformatversion=0~\n\
git-file-target^/w/t^-^g /w/m/.git;d /w/t/a;f /w/t/.git=gitdir: /w/m/.git/worktrees/t~;f /w/m/.git/worktrees/t/HEAD=ref: refs/heads/x~;f /w/m/.git/worktrees/t/commondir=~;f /w/m/.git/worktrees/t/gitdir=/w/t/.git~;f /w/m/.git/config=[core]~repositoryformatversion=0~\n\
common^/w/t^-^g /w/m/.git;d /w/t/a;f /w/t/.git=gitdir: /w/m/.git/worktrees/t~;f /w/m/.git/worktrees/t/HEAD=ref: refs/heads/x~;f /w/m/.git/worktrees/t/commondir=;f /w/m/.git/worktrees/t/gitdir=/w/t/.git~;f /w/m/.git/config=[core]~repositoryformatversion=0~\n\
common^/w/t^-^g /w/m/.git;d /w/t/a;f /w/t/.git=gitdir: /w/m/.git/worktrees/t~;f /w/m/.git/worktrees/t/HEAD=ref: refs/heads/x~;f /w/m/.git/worktrees/t/commondir= ../..~;f /w/m/.git/worktrees/t/gitdir=/w/t/.git~;f /w/m/.git/config=[core]~repositoryformatversion=0~\n\
common^/w/t^-^g /w/m/.git;d /w/t/a;f /w/t/.git=gitdir: /w/m/.git/worktrees/t~;f /w/m/.git/worktrees/t/HEAD=ref: refs/heads/x~;f /w/m/.git/worktrees/t/commondir=gone/x~;f /w/m/.git/worktrees/t/gitdir=/w/t/.git~;f /w/m/.git/config=[core]~repositoryformatversion=0~\n\
common^/w/t^-^g /w/m/.git;d /w/t/a;f /w/t/.git=gitdir: /w/m/.git/worktrees/t~;f /w/m/.git/worktrees/t/HEAD=ref: refs/heads/x~;f /w/m/.git/worktrees/t/commondir=gone/../../..~;f /w/m/.git/worktrees/t/gitdir=/w/t/.git~;f /w/m/.git/config=[core]~repositoryformatversion=0~\n\
common^/w/r/a/b^-^g /w/.git;d /w/r/a/b;g /w/r/.git;f /w/r/.git/commondir=\n\
common^/w/r/a/b^-^g /w/.git;d /w/r/a/b;g /w/r/.git;d /w/r/.git/commondir\n\
common^/w/r/a/b^-^g /w/.git;d /w/r/a/b;g /w/r/.git;l /w/r/.git/commondir=nowhere\n\
common^/w/r/a/b^-^g /w/.git;d /w/r/a/b;g /w/r/.git;l /w/r/.git/commondir=commondir\n\
common^/w/r/a/b^-^g /w/.git;d /w/r/a/b;g /w/r/.git;f /w/r/.git/commondir=gone/x~\n\
common^/w/r/a/b^-^g /w/.git;d /w/r/a/b;g /w/r/.git;f /w/r/.git/commondir=/w/gone/x~\n\
common^/w/r/a/b^-^g /w/.git;d /w/r/a/b;g /w/r/.git;f /w/r/.git/commondir=gone/..~\n\
common^/w/r/a/b^-^g /w/.git;d /w/r/a/b;g /w/r/.git;f /w/o=x;f /w/r/.git/commondir=/w/o/x~\n\
common^/w/b/x^-^g /w/.git;d /w/r/a/b;g /w/b;d /w/b/x;d /w/b/commondir\n\
found - /w /w/.git /w/.git^/w/r/a/b^-^g /w/.git;d /w/r/a/b;d /w/r/.git/objects;d /w/r/.git/refs;d /w/r/.git/commondir\n\
found - /w /w/.git /w/.git^/w/r/a/b^-^g /w/.git;d /w/r/a/b;d /w/r/.git/objects;d /w/r/.git/refs;f /w/r/.git/HEAD=x~;f /w/r/.git/commondir=\n\
found - /w /w/.git /w/.git^/w/r/a/b^-^g /w/.git;d /w/r/a/b;d /w/r/commondir\n\
found - /w /w/.git /w/.git^/w/r/a/b^-^g /w/.git;d /w/r/a/b;d /w/r/.git/refs;f /w/r/.git/HEAD=ref: refs/x~;f /w/r/.git/commondir=.~\n\
found - /w/s/n /w/s/.git/modules/n /w/s/.git/modules/n^/w/s/n/a^-^g /w/s/.git;g /w/s/.git/modules/n;f /w/s/.git/modules/n/config=[core]~repositoryformatversion=0~bare=false~worktree=../../../n~;d /w/s/n/a;f /w/s/n/.git=gitdir: ../.git/modules/n~\n\
found - /w/s/n /w/s/.git/modules/n /w/s/.git/modules/n^/w/s/n^-^g /w/s/.git;g /w/s/.git/modules/n;f /w/s/.git/modules/n/config=[core]~repositoryformatversion=0~bare=false~worktree=../../../n~;d /w/s/n/a;f /w/s/n/.git=gitdir: ../.git/modules/n~\n\
found - /w/s /w/s/.git /w/s/.git^/w/s^-^g /w/s/.git;g /w/s/.git/modules/n;f /w/s/.git/modules/n/config=[core]~repositoryformatversion=0~bare=false~worktree=../../../n~;d /w/s/n/a;f /w/s/n/.git=gitdir: ../.git/modules/n~\n\
found - /w/s/n /w/s/.git/modules/n /w/s/.git/modules/n^/w/s/n/a^-^g /w/s/.git;g /w/s/.git/modules/n;f /w/s/.git/modules/n/config=[core]~repositoryformatversion=0~bare=false~;d /w/s/n/a;f /w/s/n/.git=gitdir: ../.git/modules/n~\n\
bare^/w/s/.git/modules^-^g /w/s/.git;g /w/s/.git/modules/n;f /w/s/.git/modules/n/config=[core]~repositoryformatversion=0~bare=false~worktree=../../../n~;d /w/s/n/a;f /w/s/n/.git=gitdir: ../.git/modules/n~\n\
found - /w/r /w/r/.git /w/r/.git^/w/r/a^-^g /w/r/.git;d /w/r/a/b;f /w/r/.git/config=[core]~repositoryformatversion=0~worktree=..~\n\
found - /w/r/a /w/r/.git /w/r/.git^/w/r/a^-^g /w/r/.git;d /w/r/a/b;f /w/r/.git/config=[core]~repositoryformatversion=0~worktree=../a~\n\
found - /w/r/a /w/r/.git /w/r/.git^/w/r/a/b^-^g /w/r/.git;d /w/r/a/b;f /w/r/.git/config=[core]~repositoryformatversion=0~worktree=../a~\n\
found - /w/r/a /w/r/.git /w/r/.git^/w/r^-^g /w/r/.git;d /w/r/a/b;f /w/r/.git/config=[core]~repositoryformatversion=0~worktree=../a~\n\
found - /w/o /w/r/.git /w/r/.git^/w/r^-^g /w/r/.git;d /w/r/a/b;d /w/o;f /w/r/.git/config=[core]~repositoryformatversion=0~worktree=../../o~\n\
found - /w/o /w/r/.git /w/r/.git^/w/r/a^-^g /w/r/.git;d /w/r/a/b;d /w/o;f /w/r/.git/config=[core]~repositoryformatversion=0~worktree=/w/o~\n\
found - /w/o /w/r/.git /w/r/.git^/w/r/a^-^g /w/r/.git;d /w/r/a/b;d /w/o;f /w/r/.git/config=[core]~repositoryformatversion=0~worktree=/w/o/~\n\
found - /w/o /w/r/.git /w/r/.git^/w/r/a^-^g /w/r/.git;d /w/r/a/b;d /w/o;f /w/r/.git/config=[core]~repositoryformatversion=0~worktree=/w/r/../o~\n\
found - /w/o /w/r/.git /w/r/.git^/w/r/a^-^g /w/r/.git;d /w/r/a/b;d /w/o;l /w/p=o;f /w/r/.git/config=[core]~repositoryformatversion=0~worktree=/w/p~\n\
found - /w/o /w/r/.git /w/r/.git^/w/r/a^-^g /w/r/.git;d /w/r/a/b;d /w/o;l /w/p=o;f /w/r/.git/config=[core]~repositoryformatversion=0~worktree=../../p~\n\
found - /w/o /w/r/.git /w/r/.git^/w/r/a^-^g /w/r/.git;d /w/r/a/b;d /w/o;f /w/r/.git/config=[core]~repositoryformatversion=0~worktree=/w/r~worktree=/w/o~\n\
found - /w/o /w/r/.git /w/r/.git^/w/r/a^-^g /w/r/.git;d /w/r/a/b;d /w/o;f /w/r/.git/config=[core]~repositoryformatversion=0~worktree=\"/w/o\" # c~\n\
found - /w/o /w/r/.git /w/r/.git^/w/r/a^-^g /w/r/.git;d /w/r/a/b;d /w/o;f /w/r/.git/config=[core]~repositoryformatversion=0~bare=false~worktree=/w/o~\n\
bare^/w/r/a^-^g /w/r/.git;d /w/r/a/b;d /w/o;f /w/r/.git/config=[core]~repositoryformatversion=0~bare=true~worktree=/w/o~\n\
found - /w/r /w/r/.git /w/r/.git^/w/r/a^-^g /w/r/.git;d /w/r/a/b;d /w/o;f /w/r/.git/config=[core]~worktree=/w/o~\n\
found - /w/r/.git /w/r/.git /w/r/.git^/w/r^-^g /w/r/.git;d /w/r/a/b;f /w/r/.git/config=[core]~repositoryformatversion=0~worktree=.~\n\
found - /w/o /w/g /w/g^/w/r^-^d /w/r;g /w/g;f /w/r/.git=gitdir: ../g~;f /w/g/config=[core]~repositoryformatversion=0~worktree=../o~;d /w/o\n\
found - /w/o /w/g /w/g^/w/r^-^d /w/r;g /w/g;d /w/v/x;l /w/h=v/x;l /w/v/x/g=/w/g;f /w/r/.git=gitdir: ../h/g~;f /w/g/config=[core]~repositoryformatversion=0~worktree=../o~;d /w/o;d /w/v/o\n\
no-work-tree^/w/r/a^-^g /w/r/.git;d /w/r/a/b;f /w/r/.git/config=[core]~repositoryformatversion=0~worktree=nowhere~\n\
no-work-tree^/w/r/a^-^g /w/r/.git;d /w/r/a/b;d /w/o;f /w/f=x;f /w/r/.git/config=[core]~repositoryformatversion=0~worktree=../../f/../o~\n\
no-work-tree^/w/r/a^-^g /w/r/.git;d /w/r/a/b;d /w/o;f /w/r/.git/config=[core]~repositoryformatversion=0~worktree=/w/nowhere/../o~\n\
no-work-tree^/w/r/a^-^g /w/r/.git;d /w/r/a/b;f /w/r/.git/config=[core]~repositoryformatversion=0~worktree=../../nowhere/x~\n\
no-work-tree^/w/r/a^-^g /w/r/.git;d /w/r/a/b;f /w/r/.git/config=[core]~repositoryformatversion=0~worktree=/w/nowhere/x~\n\
no-work-tree^/w/r/a^-^g /w/r/.git;d /w/r/a/b;f /w/r/.git/config=[core]~repositoryformatversion=0~worktree=/w/nowhere~\n\
no-work-tree^/w/r/a^-^g /w/r/.git;d /w/r/a/b;f /w/o=x;f /w/r/.git/config=[core]~repositoryformatversion=0~worktree=../../o~\n\
no-work-tree^/w/r/a^-^g /w/r/.git;d /w/r/a/b;f /w/o=x;f /w/r/.git/config=[core]~repositoryformatversion=0~worktree=/w/o~\n\
no-work-tree^/w/r/a^-^g /w/r/.git;d /w/r/a/b;l /w/o=o;f /w/r/.git/config=[core]~repositoryformatversion=0~worktree=/w/o~\n\
value core.worktree^/w/r/a^-^g /w/r/.git;d /w/r/a/b;f /w/r/.git/config=[core]~repositoryformatversion=0~worktree~\n\
bare^/w/b^-^g /w/b\n\
bare^/w/b/x^-^g /w/b;d /w/b/x\n\
bare^/w/b/objects^-^g /w/b\n\
bare^/w/b^-^g /w/.git;g /w/b\n\
bare^/w/b^-^g /w/b;f /w/b/config=[core]~repositoryformatversion=0~bare=false~\n\
found - /w/b /w/b/.git /w/b/.git^/w/b^-^g /w/b;g /w/b/.git\n\
found - /w/b/x /w/b/x/.git /w/b/x/.git^/w/b/x^-^g /w/b;g /w/b/x/.git\n\
bare^/w/r/.git^-^g /w/r/.git;d /w/r/a/b\n\
bare^/w/r/.git/objects^-^g /w/r/.git;d /w/r/a/b\n\
bare^/w/r/.git/x/y^-^g /w/r/.git;d /w/r/a/b;d /w/r/.git/x/y\n\
bare^/w/r/a^-^g /w/r/.git;d /w/r/a/b;f /w/r/.git/config=[core]~repositoryformatversion=0~bare=true~\n\
bare^/w/r/a^-^g /w/r/.git;d /w/r/a/b;f /w/r/.git/config=[core]~repositoryformatversion=0~bare~\n\
bare^/w/r/a^-^g /w/r/.git;d /w/r/a/b;f /w/r/.git/config=[core]~repositoryformatversion=0~bare=1~\n\
found - /w/r /w/r/.git /w/r/.git^/w/r/a^-^g /w/r/.git;d /w/r/a/b;f /w/r/.git/config=[core]~repositoryformatversion=0~bare=~\n\
found - /w/r /w/r/.git /w/r/.git^/w/r/a^-^g /w/r/.git;d /w/r/a/b;f /w/r/.git/config=[core]~repositoryformatversion=0~bare=true~bare=no~\n\
bare^/w/r/a^-^g /w/r/.git;d /w/r/a/b;f /w/r/.git/config=[core]~repositoryformatversion=0~bare=false~bare=YES~\n\
bare^/w/r/a^-^g /w/r/.git;d /w/r/a/b;f /w/r/.git/config=[core]~repositoryformatversion=0~[core]~bare=on~\n\
found - /w/r /w/r/.git /w/r/.git^/w/r/a^-^g /w/r/.git;d /w/r/a/b;f /w/r/.git/config=[core]~repositoryformatversion=0~[core \"x\"]~bare=true~\n\
bare^/w/r/a^-^g /w/r/.git;d /w/r/a/b;f /w/r/.git/config=[core]~repositoryformatversion=0~[CORE]~BARE=on~\n\
found - /w/r /w/r/.git /w/r/.git^/w/r/a^-^g /w/r/.git;d /w/r/a/b;f /w/r/.git/config=[core]~bare=true~\n\
value core.bare^/w/r/a^-^g /w/r/.git;d /w/r/a/b;f /w/r/.git/config=[core]~repositoryformatversion=0~bare=maybe~\n\
version 2^/w/r/a^-^g /w/r/.git;d /w/r/a/b;f /w/r/.git/config=[core]~repositoryformatversion=2~\n\
version 99^/w/r/a^-^g /w/r/.git;d /w/r/a/b;f /w/r/.git/config=[core]~repositoryformatversion=99~\n\
found - /w/r /w/r/.git /w/r/.git^/w/r/a^-^g /w/r/.git;d /w/r/a/b;f /w/r/.git/config=[core]~repositoryformatversion=2~repositoryformatversion=1~\n\
version 2^/w/r/a^-^g /w/r/.git;d /w/r/a/b;f /w/r/.git/config=[core]~repositoryformatversion=0~repositoryformatversion=2~\n\
version one^/w/r/a^-^g /w/r/.git;d /w/r/a/b;f /w/r/.git/config=[core]~repositoryformatversion=one~\n\
version ^/w/r/a^-^g /w/r/.git;d /w/r/a/b;f /w/r/.git/config=[core]~repositoryformatversion=~\n\
version 2^/w/r/a^-^g /w/r/.git;d /w/r/a/b;f /w/r/.git/config=[core]~RepositoryFormatVersion=2~\n\
version ^/w/r/a^-^g /w/r/.git;d /w/r/a/b;f /w/r/.git/config=[core]~repositoryformatversion~\n\
found - /w/r /w/r/.git /w/r/.git^/w/r/a^-^g /w/r/.git;d /w/r/a/b;f /w/r/.git/config=[core \"x\"]~repositoryformatversion=2~\n\
version 2^/w/r/a^-^g /w/.git;d /w/r/a/b;g /w/r/.git;f /w/r/.git/config=[core]~repositoryformatversion=2~\n\
found - /w/r /w/r/.git /w/r/.git^/w/r/a^-^g /w/r/.git;d /w/r/a/b;f /w/r/.git/config=[core]~repositoryformatversion=1~[extensions]~noop~\n\
found - /w/r /w/r/.git /w/r/.git^/w/r/a^-^g /w/r/.git;d /w/r/a/b;f /w/r/.git/config=[core]~repositoryformatversion=1~[extensions]~noop-v1~\n\
found - /w/r /w/r/.git /w/r/.git^/w/r/a^-^g /w/r/.git;d /w/r/a/b;f /w/r/.git/config=[core]~repositoryformatversion=1~[extensions]~preciousobjects=true~\n\
found - /w/r /w/r/.git /w/r/.git^/w/r/a^-^g /w/r/.git;d /w/r/a/b;f /w/r/.git/config=[core]~repositoryformatversion=1~[extensions]~partialclone=origin~\n\
found - /w/r /w/r/.git /w/r/.git^/w/r/a^-^g /w/r/.git;d /w/r/a/b;f /w/r/.git/config=[core]~repositoryformatversion=1~[extensions]~objectformat=sha1~\n\
found - /w/r /w/r/.git /w/r/.git^/w/r/a^-^g /w/r/.git;d /w/r/a/b;f /w/r/.git/config=[core]~repositoryformatversion=1~[extensions]~ObjectFormat=sha1~\n\
sha256^/w/r/a^-^g /w/r/.git;d /w/r/a/b;f /w/r/.git/config=[core]~repositoryformatversion=1~[extensions]~objectformat=sha256~\n\
extension objectformat^/w/r/a^-^g /w/r/.git;d /w/r/a/b;f /w/r/.git/config=[core]~repositoryformatversion=1~[extensions]~objectformat=md5~\n\
extension objectformat^/w/r/a^-^g /w/r/.git;d /w/r/a/b;f /w/r/.git/config=[core]~repositoryformatversion=1~[extensions]~objectformat=SHA1~\n\
extension objectformat^/w/r/a^-^g /w/r/.git;d /w/r/a/b;f /w/r/.git/config=[core]~repositoryformatversion=1~[extensions]~objectformat~\n\
extension x^/w/r/a^-^g /w/r/.git;d /w/r/a/b;f /w/r/.git/config=[core]~repositoryformatversion=1~[extensions]~x=1~\n\
extension y^/w/r/a^-^g /w/r/.git;d /w/r/a/b;f /w/r/.git/config=[core]~repositoryformatversion=1~[extensions]~noop~y~x~\n\
extension x^/w/r/a^-^g /w/r/.git;d /w/r/a/b;f /w/r/.git/config=[core]~repositoryformatversion=1~[Extensions]~X=1~\n\
extension z^/w/r/a^-^g /w/r/.git;d /w/r/a/b;f /w/r/.git/config=[core]~repositoryformatversion=1~[extensions]~noop~[core]~bare=false~[extensions]~z=1~\n\
extension x^/w/r/a^-^g /w/r/.git;d /w/r/a/b;f /w/r/.git/config=[extensions]~x~[core]~repositoryformatversion=1~\n\
found - /w/r /w/r/.git /w/r/.git^/w/r/a^-^g /w/r/.git;d /w/r/a/b;f /w/r/.git/config=[core]~repositoryformatversion=0~[extensions]~x=1~\n\
found - /w/r /w/r/.git /w/r/.git^/w/r/a^-^g /w/r/.git;d /w/r/a/b;f /w/r/.git/config=[core]~repositoryformatversion=0~[extensions]~noop~preciousobjects=true~partialclone=o~\n\
found - /w/r /w/r/.git /w/r/.git^/w/r/a^-^g /w/r/.git;d /w/r/a/b;f /w/r/.git/config=[core]~repositoryformatversion=0~[extensions \"s\"]~x=1~\n\
extension s.T.noop^/w/r/a^-^g /w/r/.git;d /w/r/a/b;f /w/r/.git/config=[core]~repositoryformatversion=1~[extensions \"s.T\"]~noop=1~\n\
extension s.T.objectformat^/w/r/a^-^g /w/r/.git;d /w/r/a/b;f /w/r/.git/config=[core]~repositoryformatversion=1~[extensions \"s.T\"]~objectformat=sha256~\n\
extension refstorage^/w/r/a^-^g /w/r/.git;d /w/r/a/b;f /w/r/.git/config=[core]~repositoryformatversion=1~[extensions]~refStorage=reftable~\n\
extension refstorage^/w/r/a^-^g /w/r/.git;d /w/r/a/b;f /w/r/.git/config=[core]~repositoryformatversion=1~[extensions]~refstorage=Files~\n\
extension refstorage^/w/r/a^-^g /w/r/.git;d /w/r/a/b;f /w/r/.git/config=[core]~repositoryformatversion=1~[extensions]~refstorage~\n\
extension refstorage^/w/r/a^-^g /w/r/.git;d /w/r/a/b;f /w/r/.git/config=[core]~repositoryformatversion=1~[extensions]~refstorage=~~\n\
extension x.y^/w/r/a^-^g /w/r/.git;d /w/r/a/b;f /w/r/.git/config=[core]~repositoryformatversion=1~[extensions.x]~y=1~\n\
extension x.z.y^/w/r/a^-^g /w/r/.git;d /w/r/a/b;f /w/r/.git/config=[core]~repositoryformatversion=1~[EXTENSIONS.x.z]~y=1~\n\
extension x.s.y^/w/r/a^-^g /w/r/.git;d /w/r/a/b;f /w/r/.git/config=[core]~repositoryformatversion=1~[extensions.x \"s\"]~y=1~\n\
extension noop.y^/w/r/a^-^g /w/r/.git;d /w/r/a/b;f /w/r/.git/config=[core]~repositoryformatversion=1~[extensions.noop]~y=1~\n\
extension .y^/w/r/a^-^g /w/r/.git;d /w/r/a/b;f /w/r/.git/config=[core]~repositoryformatversion=1~[extensions.]~y=1~\n\
found - /w/r /w/r/.git /w/r/.git^/w/r/a^-^g /w/r/.git;d /w/r/a/b;f /w/r/.git/config=[core]~repositoryformatversion=1~[extensionsx.y]~y=1~\n\
found - /w/r /w/r/.git /w/r/.git^/w/r/a^-^g /w/r/.git;d /w/r/a/b;f /w/r/.git/config=[core]~repositoryformatversion=1~[extensions-x]~y=1~\n\
found - /w/r /w/r/.git /w/r/.git^/w/r/a^-^g /w/r/.git;d /w/r/a/b;f /w/r/.git/config=[core]~repositoryformatversion=1~[a.extensions]~y=1~\n\
found - /w/r /w/r/.git /w/r/.git^/w/r/a^-^g /w/r/.git;d /w/r/a/b;f /w/r/.git/config=[core]~repositoryformatversion=0~[extensions.x]~y=1~\n\
found - /w/r /w/r/.git /w/r/.git^/w/r/a^-^g /w/r/.git;d /w/r/a/b;f /w/r/.git/config=[core]~repositoryformatversion=0~[extensions.x \"s\"]~y=1~\n\
found - /w/r /w/r/.git /w/r/.git^/w/r/a^-^g /w/r/.git;d /w/r/a/b;f /w/r/.git/config=[core]~repositoryformatversion=1~[extensions.x]~\n\
extension x.noop^/w/r/a^-^g /w/r/.git;d /w/r/a/b;f /w/r/.git/config=[core]~repositoryformatversion=1~[extensions.x]~noop~[extensions]~y~\n\
extension noop-v1^/w/r/a^-^g /w/r/.git;d /w/r/a/b;f /w/r/.git/config=[core]~repositoryformatversion=0~[extensions]~noop-v1~\n\
extension objectformat^/w/r/a^-^g /w/r/.git;d /w/r/a/b;f /w/r/.git/config=[core]~repositoryformatversion=0~[extensions]~objectformat=sha1~\n\
extension objectformat^/w/r/a^-^g /w/r/.git;d /w/r/a/b;f /w/r/.git/config=[core]~repositoryformatversion=0~[extensions]~objectformat=sha256~\n\
found - /w/r /w/r/.git /w/r/.git^/w/r/a^-^g /w/r/.git;d /w/r/a/b;f /w/r/.git/config=[core]~repositoryformatversion=0~[extensions]~refstorage=files~\n\
found - /w/r /w/r/.git /w/r/.git^/w/r/a^-^g /w/r/.git;d /w/r/a/b;f /w/r/.git/config=[extensions]~x=1~\n\
found - /w/r /w/r/.git /w/r/.git^/w/r/a^-^g /w/r/.git;d /w/r/a/b;f /w/r/.git/config=[extensions]~noop-v1~\n\
found - /w/r /w/r/.git /w/r/.git^/w/r/a^-^g /w/r/.git;d /w/r/a/b;f /w/r/.git/config=[extensions]~objectformat=sha256~\n\
found - /w/r /w/r/.git /w/r/.git^/w/r/a^-^g /w/r/.git;d /w/r/a/b;f /w/r/.git/config=[core]~repositoryformatversion=0~[extensions]~worktreeconfig=true~\n\
found own /w/r /w/r/.git /w/r/.git^/w/r/a^-^g /w/r/.git;d /w/r/a/b;f /w/r/.git/config=[core]~repositoryformatversion=0~[extensions]~worktreeconfig=true~;f /w/r/.git/config.worktree=[own]~here=yes~\n\
found own /w/r /w/r/.git /w/r/.git^/w/r/a^-^g /w/r/.git;d /w/r/a/b;f /w/r/.git/config=[core]~repositoryformatversion=1~[extensions]~worktreeconfig=true~;f /w/r/.git/config.worktree=[own]~here=yes~\n\
found shared /w/r /w/r/.git /w/r/.git^/w/r/a^-^g /w/r/.git;d /w/r/a/b;f /w/r/.git/config=[core]~repositoryformatversion=0~;f /w/r/.git/config.worktree=[own]~here=yes~\n\
found shared /w/r /w/r/.git /w/r/.git^/w/r/a^-^g /w/r/.git;d /w/r/a/b;f /w/r/.git/config=[core]~repositoryformatversion=0~[extensions]~worktreeconfig=off~;f /w/r/.git/config.worktree=[own]~here=yes~\n\
found shared /w/r /w/r/.git /w/r/.git^/w/r/a^-^g /w/r/.git;d /w/r/a/b;f /w/r/.git/config=[extensions]~worktreeconfig=true~;f /w/r/.git/config.worktree=[own]~here=yes~[core]~bare=true~\n\
value extensions.worktreeconfig^/w/r/a^-^g /w/r/.git;d /w/r/a/b;f /w/r/.git/config=[core]~repositoryformatversion=0~[extensions]~worktreeconfig=maybe~\n\
found shared /w/r /w/r/.git /w/r/.git^/w/r/a^-^g /w/r/.git;d /w/r/a/b;f /w/r/.git/config=[core]~repositoryformatversion=0~[extensions]~worktreeconfig=true~worktreeconfig=false~;f /w/r/.git/config.worktree=[own]~here=yes~[core]~bare=true~\n\
bare^/w/r/a^-^g /w/r/.git;d /w/r/a/b;f /w/r/.git/config=[core]~repositoryformatversion=0~[extensions]~worktreeconfig=true~;f /w/r/.git/config.worktree=[core]~bare=true~\n\
found own /w/r /w/r/.git /w/r/.git^/w/r/a^-^g /w/r/.git;d /w/r/a/b;f /w/r/.git/config=[core]~repositoryformatversion=0~bare=true~[extensions]~worktreeconfig=true~;f /w/r/.git/config.worktree=[core]~bare=false~[own]~here=yes~\n\
bare^/w/r/a^-^g /w/r/.git;d /w/r/a/b;f /w/r/.git/config=[core]~repositoryformatversion=0~bare=true~[extensions]~worktreeconfig=true~\n\
found own /w/o /w/r/.git /w/r/.git^/w/r/a^-^g /w/r/.git;d /w/r/a/b;d /w/o;f /w/r/.git/config=[core]~repositoryformatversion=0~worktree=/w/r~[extensions]~worktreeconfig=true~;f /w/r/.git/config.worktree=[core]~worktree=/w/o~[own]~here=yes~\n\
found - /w/r /w/r/.git /w/r/.git^/w/r/a^-^g /w/r/.git;d /w/r/a/b;d /w/o;f /w/r/.git/config=[core]~repositoryformatversion=0~worktree=/w/o~[extensions]~worktreeconfig=true~;f /w/r/.git/config.worktree=[core]~worktree=/w/r~\n\
found own /w/r /w/r/.git /w/r/.git^/w/r/a^-^g /w/r/.git;d /w/r/a/b;f /w/r/.git/config=[core]~repositoryformatversion=0~[extensions]~worktreeconfig=true~;f /w/r/.git/config.worktree=[core]~repositoryformatversion=2~[own]~here=yes~\n\
found own /w/r /w/r/.git /w/r/.git^/w/r/a^-^g /w/r/.git;d /w/r/a/b;f /w/r/.git/config=[core]~repositoryformatversion=0~[extensions]~worktreeconfig=true~;f /w/r/.git/config.worktree=[extensions]~objectformat=md5~[own]~here=yes~\n\
config^/w/r/a^-^g /w/r/.git;d /w/r/a/b;f /w/r/.git/config=[core]~repositoryformatversion=0~[extensions]~worktreeconfig=true~;f /w/r/.git/config.worktree=[core~\n\
value core.bare^/w/r/a^-^g /w/r/.git;d /w/r/a/b;f /w/r/.git/config=[core]~repositoryformatversion=0~[extensions]~worktreeconfig=true~;f /w/r/.git/config.worktree=[core]~bare=maybe~\n\
found - /w/t /w/m/.git/worktrees/t /w/m/.git^/w/t^-^g /w/m/.git;d /w/t/a;f /w/t/.git=gitdir: /w/m/.git/worktrees/t~;f /w/m/.git/worktrees/t/HEAD=ref: refs/heads/x~;f /w/m/.git/worktrees/t/commondir=../..~;f /w/m/.git/worktrees/t/gitdir=/w/t/.git~;f /w/m/.git/config=[core]~repositoryformatversion=0~[extensions]~worktreeconfig=true~\n\
bare^/w/t^-^g /w/m/.git;d /w/t/a;f /w/t/.git=gitdir: /w/m/.git/worktrees/t~;f /w/m/.git/worktrees/t/HEAD=ref: refs/heads/x~;f /w/m/.git/worktrees/t/commondir=../..~;f /w/m/.git/worktrees/t/gitdir=/w/t/.git~;f /w/m/.git/config=[core]~repositoryformatversion=0~bare=true~[extensions]~worktreeconfig=true~\n\
found own /w/t /w/m/.git/worktrees/t /w/m/.git^/w/t^-^g /w/m/.git;d /w/t/a;f /w/t/.git=gitdir: /w/m/.git/worktrees/t~;f /w/m/.git/worktrees/t/HEAD=ref: refs/heads/x~;f /w/m/.git/worktrees/t/commondir=../..~;f /w/m/.git/worktrees/t/gitdir=/w/t/.git~;f /w/m/.git/config=[core]~repositoryformatversion=0~bare=true~[extensions]~worktreeconfig=true~;f /w/m/.git/worktrees/t/config.worktree=[core]~bare=false~[own]~here=yes~\n\
found own /w/t /w/m/.git/worktrees/t /w/m/.git^/w/t^-^g /w/m/.git;d /w/t/a;f /w/t/.git=gitdir: /w/m/.git/worktrees/t~;f /w/m/.git/worktrees/t/HEAD=ref: refs/heads/x~;f /w/m/.git/worktrees/t/commondir=../..~;f /w/m/.git/worktrees/t/gitdir=/w/t/.git~;f /w/m/.git/config=[core]~repositoryformatversion=0~[extensions]~worktreeconfig=true~;f /w/m/.git/worktrees/t/config.worktree=[own]~here=yes~\n\
found - /w/t /w/m/.git/worktrees/t /w/m/.git^/w/t^-^g /w/m/.git;d /w/t/a;f /w/t/.git=gitdir: /w/m/.git/worktrees/t~;f /w/m/.git/worktrees/t/HEAD=ref: refs/heads/x~;f /w/m/.git/worktrees/t/commondir=../..~;f /w/m/.git/worktrees/t/gitdir=/w/t/.git~;f /w/m/.git/config=[core]~repositoryformatversion=0~[extensions]~worktreeconfig=true~;f /w/m/.git/config.worktree=[core]~bare=true~\n\
bare^/w/m^-^g /w/m/.git;d /w/t/a;f /w/t/.git=gitdir: /w/m/.git/worktrees/t~;f /w/m/.git/worktrees/t/HEAD=ref: refs/heads/x~;f /w/m/.git/worktrees/t/commondir=../..~;f /w/m/.git/worktrees/t/gitdir=/w/t/.git~;f /w/m/.git/config=[core]~repositoryformatversion=0~[extensions]~worktreeconfig=true~;f /w/m/.git/config.worktree=[core]~bare=true~\n\
found own /w/o /w/m/.git/worktrees/t /w/m/.git^/w/t^-^g /w/m/.git;d /w/t/a;f /w/t/.git=gitdir: /w/m/.git/worktrees/t~;f /w/m/.git/worktrees/t/HEAD=ref: refs/heads/x~;f /w/m/.git/worktrees/t/commondir=../..~;f /w/m/.git/worktrees/t/gitdir=/w/t/.git~;f /w/m/.git/config=[core]~repositoryformatversion=0~[extensions]~worktreeconfig=true~;f /w/m/.git/worktrees/t/config.worktree=[core]~worktree=/w/o~[own]~here=yes~;d /w/o\n\
found - /w/r /w/r/.git /w/r/.git^/w/r/a^-^g /w/r/.git;d /w/r/a/b;f /w/r/.git/config=[core]~repositoryformatversion=0~[include]~path=/w/x~;f /w/x=[core]~bare=true~worktree=/w~\n\
found - /w/r /w/r/.git /w/r/.git^/w/r/a^-^g /w/r/.git;d /w/r/a/b;f /w/r/.git/config=[core]~repositoryformatversion=1~[include]~path=x~;f /w/r/.git/x=[extensions]~x=1~\n\
found - /w/r /w/r/.git /w/r/.git^/w/r/a^-^g /w/r/.git;d /w/r/a/b;f /w/r/.git/config=[include]~path=x~;f /w/r/.git/x=[core]~repositoryformatversion=2~\n\
config^/w/r/a^-^g /w/r/.git;d /w/r/a/b;f /w/r/.git/config=[core]~repositoryformatversion=0~[x~\n\
config^/w/r/a^-^g /w/r/.git;d /w/r/a/b;f /w/r/.git/config=[core~\n\
found - /w/r /w/r/.git /w/r/.git^/w/r/a^-^g /w/r/.git;d /w/r/a/b;l /w/r/.git/config=nowhere\n\
version 2^/w/r/a^-^g /w/r/.git;d /w/r/a/b;f /w/c=[core]~repositoryformatversion=2~;l /w/r/.git/config=../../c\n\
version 2^/w/r/a^-^g /w/r/.git;d /w/r/a/b;f /w/r/.git/config=\xef\xbb\xbf[core]~repositoryformatversion=2~\n\
no-repository^/w/r/a/b^/w/r^g /w/r/.git;d /w/r/a/b\n\
no-repository^/w/r/a/b^/w/r/^g /w/r/.git;d /w/r/a/b\n\
no-repository^/w/r/a/b^/w/r//^g /w/r/.git;d /w/r/a/b\n\
no-repository^/w/r/a/b^/w/r/a/..^g /w/r/.git;d /w/r/a/b\n\
found - /w/r /w/r/.git /w/r/.git^/w/r/a/b^/w/r/nowhere/..^g /w/r/.git;d /w/r/a/b\n\
found - /w/r /w/r/.git /w/r/.git^/w/r/a/b^/w^g /w/r/.git;d /w/r/a/b\n\
found - /w/r /w/r/.git /w/r/.git^/w/r^/w/r^g /w/r/.git;d /w/r/a/b\n\
no-repository^/w/r/a^/w/r^g /w/r/.git;d /w/r/a/b\n\
no-repository^/w/r/a/b^/w/r/a^g /w/r/.git;d /w/r/a/b\n\
found - /w/r /w/r/.git /w/r/.git^/w/r/a/b^/w/r/a/b^g /w/r/.git;d /w/r/a/b\n\
found - /w/r /w/r/.git /w/r/.git^/w/r/a/b^/w/r/a/b/c^g /w/r/.git;d /w/r/a/b\n\
found - /w/r /w/r/.git /w/r/.git^/w/r/a/b^/w/r/x^g /w/r/.git;d /w/r/a/b\n\
found - /w/r /w/r/.git /w/r/.git^/w/r/a/b^/w/ra^g /w/r/.git;d /w/r/a/b\n\
found - /w/r /w/r/.git /w/r/.git^/w/r/a/b^/^g /w/r/.git;d /w/r/a/b\n\
found - /w/r /w/r/.git /w/r/.git^/w/r/a/b^r^g /w/r/.git;d /w/r/a/b\n\
found - /w/r /w/r/.git /w/r/.git^/w/r/a/b^..:.:w/r^g /w/r/.git;d /w/r/a/b\n\
no-repository^/w/r/a/b^x:/w/r^g /w/r/.git;d /w/r/a/b\n\
no-repository^/w/r/a/b^/w/nowhere:/w/r^g /w/r/.git;d /w/r/a/b\n\
no-repository^/w/r/a/b^/w/r:/w^g /w/r/.git;d /w/r/a/b\n\
no-repository^/w/r/a/b^/w:/w/r^g /w/r/.git;d /w/r/a/b\n\
no-repository^/w/r/a/b^/w/l^g /w/r/.git;d /w/r/a/b;l /w/l=r\n\
no-repository^/w/r/a/b^/w/l/a^g /w/r/.git;d /w/r/a/b;l /w/l=r\n\
found - /w/r /w/r/.git /w/r/.git^/w/r/a/b^:/w/l^g /w/r/.git;d /w/r/a/b;l /w/l=r\n\
no-repository^/w/r/a/b^:/w/r^g /w/r/.git;d /w/r/a/b\n\
no-repository^/w/r/a/b^::/w/r^g /w/r/.git;d /w/r/a/b\n\
no-repository^/w/r/a/b^:/w/r/^g /w/r/.git;d /w/r/a/b\n\
found - /w/r /w/r/.git /w/r/.git^/w/r/a/b^:/w/r//^g /w/r/.git;d /w/r/a/b\n\
found - /w/r /w/r/.git /w/r/.git^/w/r/a/b^:/w/r/.^g /w/r/.git;d /w/r/a/b\n\
found - /w/r /w/r/.git /w/r/.git^/w/r/a/b^:/w/./r^g /w/r/.git;d /w/r/a/b\n\
found - /w/r /w/r/.git /w/r/.git^/w/r/a/b^:/w/r/a/..^g /w/r/.git;d /w/r/a/b\n\
found - /w/r /w/r/.git /w/r/.git^/w/r/a/b^:r^g /w/r/.git;d /w/r/a/b\n\
no-repository^/w/r/a/b^/w/l::/w/x^g /w/r/.git;d /w/r/a/b;l /w/l=r\n\
found - /w/r /w/r/.git /w/r/.git^/w/r/a/b^/w/x::/w/l^g /w/r/.git;d /w/r/a/b;l /w/l=r\n\
found - /w/r /w/r/.git /w/r/.git^/w/r/a/b^^g /w/r/.git;d /w/r/a/b\n\
found - /w/r /w/r/.git /w/r/.git^/w/r/a/b^:^g /w/r/.git;d /w/r/a/b\n\
no-repository^/w/r/a/b^/w/r^g /w/.git;d /w/r/a/b\n\
no-repository^/w/r/a/b^/w^g /w/.git;d /w/r/a/b\n\
no-repository^/w/r/a/b^/w/r^g /w/.git;d /w/r/a/b;f /w/r/.git=x~\n\
no-repository^/w/r/a/b^/w/r^g /w/r;d /w/r/a/b\n\
";

/// Where git answers otherwise, its answer before the one of the definitions:
///
/// - git and the walk do not agree on what `HEAD` of a git directory has to be; here that is
///   refused
/// - git asks for the target of a link at `HEAD`, which is not known here; so that is refused
/// - git passes over a git directory whose common directory is not there; here that is refused
/// - git says of a `.git` file whose common directory is not there that it names no git directory;
///   here `commondir` is refused
/// - git takes a path up to a NUL; here no path has one
/// - git reads the version as a number, in any spelling; here it is `0` or `1`
/// - git takes a version below 0 as none; here it is refused
/// - git reads each value of the keys that it looks for; here the last one of those that have a say
///   is read
/// - git reads all values before it looks at the version and the extensions; here they are looked
///   at first
/// - git reads a value before a line outside the grammar behind it; here the whole file is read
///   first
/// - git reads `core.bare` of a repository whose ids are of SHA-256; here that is not read
/// - git names unknown extensions before it says that ids are of SHA-256; here the first key counts
/// - git 2.39 does not know this extension; here, where no ref is read, it has no say
/// - git says of an empty `core.worktree` that no work tree is there; here it is a value that
///   cannot be read
/// - git takes the work tree that `core.worktree` names in a git directory too; here a directory in
///   it is refused as bare
/// - git reads the format of a bare repository too; here it is refused as bare
/// - git takes `..` behind a file for the directory that the file is in; here nothing is behind a
///   file
/// - git ends a path at a NUL; here no path has one
pub const DIFFERENCES: &[u8] = b"\
found - /w/r /w/r/.git /w/r/.git=>odd-head^/w/r/a/b^-^g /w/.git;d /w/r/a/b;d /w/r/.git/objects;d /w/r/.git/refs;f /w/r/.git/HEAD=ref:refs/heads/x~\n\
found - /w/r /w/r/.git /w/r/.git=>odd-head^/w/r/a/b^-^g /w/.git;d /w/r/a/b;d /w/r/.git/objects;d /w/r/.git/refs;f /w/r/.git/HEAD=ref:~refs/heads/x~\n\
found - /w/r /w/r/.git /w/r/.git=>odd-head^/w/r/a/b^-^g /w/.git;d /w/r/a/b;d /w/r/.git/objects;d /w/r/.git/refs;f /w/r/.git/HEAD=ref: refs/heads/x~~\n\
found - /w/r /w/r/.git /w/r/.git=>odd-head^/w/r/a/b^-^g /w/.git;d /w/r/a/b;d /w/r/.git/objects;d /w/r/.git/refs;f /w/r/.git/HEAD=ref: refs/heads/x~y~\n\
found - /w/r /w/r/.git /w/r/.git=>odd-head^/w/r/a/b^-^g /w/.git;d /w/r/a/b;d /w/r/.git/objects;d /w/r/.git/refs;f /w/r/.git/HEAD=ref:\trefs/heads/x~\n\
found - /w/r /w/r/.git /w/r/.git=>odd-head^/w/r/a/b^-^g /w/.git;d /w/r/a/b;d /w/r/.git/objects;d /w/r/.git/refs;f /w/r/.git/HEAD=a1a1a1a1a1a1a1a1a1a1a1a1a1a1a1a1a1a1a1a10~\n\
found - /w/r /w/r/.git /w/r/.git=>odd-head^/w/r/a/b^-^g /w/.git;d /w/r/a/b;d /w/r/.git/objects;d /w/r/.git/refs;f /w/r/.git/HEAD=a1a1a1a1a1a1a1a1a1a1a1a1a1a1a1a1a1a1a1a1~~\n\
found - /w/r /w/r/.git /w/r/.git=>odd-head^/w/r/a/b^-^g /w/.git;d /w/r/a/b;d /w/r/.git/objects;d /w/r/.git/refs;f /w/r/.git/HEAD=a1a1a1a1a1a1a1a1a1a1a1a1a1a1a1a1a1a1a1a1 x~\n\
found - /w/r /w/r/.git /w/r/.git=>odd-head^/w/r/a/b^-^g /w/.git;d /w/r/a/b;d /w/r/.git/objects;d /w/r/.git/refs;f /w/r/.git/HEAD=a1a1a1a1a1a1a1a1a1a1a1a1a1a1a1a1a1a1a1a1\r~\n\
found - /w/r /w/r/.git /w/r/.git=>odd-head^/w/r/a/b^-^g /w/.git;d /w/r/a/b;d /w/r/.git/objects;d /w/r/.git/refs;f /w/r/.git/HEAD=ref: ~refs/x\n\
found - /w /w/.git /w/.git=>odd-head^/w/r/a/b^-^g /w/.git;d /w/r/a/b;d /w/r/.git/objects;d /w/r/.git/refs;f /w/r/.git/HEAD=ref: foo~\n\
found - /w /w/.git /w/.git=>odd-head^/w/r/a/b^-^g /w/.git;d /w/r/a/b;d /w/r/.git/objects;d /w/r/.git/refs;f /w/r/.git/HEAD=ref: foo\n\
found - /w /w/.git /w/.git=>odd-head^/w/r/a/b^-^g /w/.git;d /w/r/a/b;d /w/r/.git/objects;d /w/r/.git/refs;f /w/r/.git/HEAD=ref: refsx~\n\
found - /w /w/.git /w/.git=>odd-head^/w/r/a/b^-^g /w/.git;d /w/r/a/b;d /w/r/.git/objects;d /w/r/.git/refs;f /w/r/.git/HEAD=ref: /refs/x~\n\
found - /w /w/.git /w/.git=>odd-head^/w/r/a/b^-^g /w/.git;d /w/r/a/b;d /w/r/.git/objects;d /w/r/.git/refs;f /w/r/.git/HEAD=ref: HEAD~\n\
found - /w /w/.git /w/.git=>odd-head^/w/r/a/b^-^g /w/.git;d /w/r/a/b;d /w/r/.git/objects;d /w/r/.git/refs;f /w/r/.git/HEAD=ref: \x0crefs/x~\n\
found - /w /w/.git /w/.git=>odd-head^/w/r/a/b^-^g /w/.git;d /w/r/a/b;d /w/r/.git/objects;d /w/r/.git/refs;f /w/r/.git/HEAD=ref:                                                                                                                                                                                                                                                       refs/~\n\
git-file-target=>odd-head^/w/r/a/b^-^g /w/.git;d /w/r/a/b;d /w/g/objects;d /w/g/refs;f /w/g/HEAD=ref: foo~;f /w/r/.git=gitdir: ../g~\n\
found - /w/r /w/g /w/g=>odd-head^/w/r/a/b^-^g /w/.git;d /w/r/a/b;d /w/g/objects;d /w/g/refs;f /w/g/HEAD=ref:refs/x~;f /w/r/.git=gitdir: ../g~\n\
found - /w /w/.git /w/.git=>odd-head^/w/b/x^-^g /w/.git;d /w/r/a/b;d /w/b/objects;d /w/b/refs;d /w/b/x;f /w/b/HEAD=ref: foo~\n\
bare=>odd-head^/w/b^-^g /w/.git;d /w/r/a/b;d /w/b/objects;d /w/b/refs;d /w/b/x;f /w/b/HEAD=ref: refs/x~~\n\
found - /w/r /w/r/.git /w/r/.git=>odd-head^/w/r/a/b^-^g /w/.git;d /w/r/a/b;d /w/r/.git/objects;d /w/r/.git/refs;l /w/r/.git/HEAD=refs/heads/x\n\
found - /w/r /w/r/.git /w/r/.git=>odd-head^/w/r/a/b^-^g /w/.git;d /w/r/a/b;d /w/r/.git/objects;d /w/r/.git/refs;f /w/r/.git/refs/heads/x=a1a1a1a1a1a1a1a1a1a1a1a1a1a1a1a1a1a1a1a1~;l /w/r/.git/HEAD=refs/heads/x\n\
found - /w/r /w/r/.git /w/r/.git=>odd-head^/w/r/a/b^-^g /w/.git;d /w/r/a/b;d /w/r/.git/objects;d /w/r/.git/refs;f /w/r/.git/refs/heads/x=junk~;l /w/r/.git/HEAD=refs/heads/x\n\
found - /w /w/.git /w/.git=>odd-head^/w/r/a/b^-^g /w/.git;d /w/r/a/b;d /w/r/.git/objects;d /w/r/.git/refs;l /w/r/.git/HEAD=nowhere\n\
found - /w /w/.git /w/.git=>odd-head^/w/r/a/b^-^g /w/.git;d /w/r/a/b;d /w/r/.git/objects;d /w/r/.git/refs;l /w/r/.git/HEAD=HEAD\n\
found - /w /w/.git /w/.git=>odd-head^/w/r/a/b^-^g /w/.git;d /w/r/a/b;d /w/r/.git/objects;d /w/r/.git/refs;f /w/h=ref: refs/heads/x~;l /w/r/.git/HEAD=/w/h\n\
found - /w /w/.git /w/.git=>odd-head^/w/r/a/b^-^g /w/.git;d /w/r/a/b;d /w/r/.git/objects;d /w/r/.git/refs;f /w/h=ref: refs/heads/x~;l /w/r/.git/HEAD=../../h\n\
found - /w /w/.git /w/.git=>odd-head^/w/r/a/b^-^g /w/.git;d /w/r/a/b;d /w/r/.git/objects;d /w/r/.git/refs;f /w/r/.git/refs/heads/x=a1a1a1a1a1a1a1a1a1a1a1a1a1a1a1a1a1a1a1a1~;l /w/r/.git/HEAD=./refs/heads/x\n\
found - /w /w/.git /w/.git=>odd-head^/w/r/a/b^-^g /w/.git;d /w/r/a/b;d /w/r/.git/objects;d /w/r/.git/refs;l /w/r/.git/HEAD=refs\n\
found - /w/r /w/r/.git /w/r/.git=>odd-head^/w/r/a/b^-^g /w/.git;d /w/r/a/b;d /w/r/.git/objects;d /w/r/.git/refs;l /w/r/.git/HEAD=refs/\n\
found - /w/r /w/g /w/g=>odd-head^/w/r/a/b^-^g /w/.git;d /w/r/a/b;d /w/g/objects;d /w/g/refs;l /w/g/HEAD=refs/heads/x;f /w/r/.git=gitdir: /w/g~\n\
bare=>odd-head^/w/r/a/b^-^g /w/.git;d /w/r/a/b;d /w/r/objects;d /w/r/refs;l /w/r/HEAD=refs/heads/x\n\
found - /w /w/.git /w/.git=>common^/w/r/a/b^-^g /w/.git;d /w/r/a/b;g /w/r/.git;f /w/r/.git/commondir=gone~\n\
found - /w /w/.git /w/.git=>common^/w/r/a/b^-^g /w/.git;d /w/r/a/b;g /w/r/.git;f /w/o=x;f /w/r/.git/commondir=/w/o~\n\
git-file-target=>common^/w/t^-^g /w/m/.git;d /w/t/a;f /w/t/.git=gitdir: /w/m/.git/worktrees/t~;f /w/m/.git/worktrees/t/HEAD=ref: refs/heads/x~;f /w/m/.git/worktrees/t/commondir=nowhere~;f /w/m/.git/worktrees/t/gitdir=/w/t/.git~;f /w/m/.git/config=[core]~repositoryformatversion=0~\n\
git-file-target=>common^/w/t^-^g /w/m/.git;d /w/t/a;f /w/t/.git=gitdir: /w/m/.git/worktrees/t~;f /w/m/.git/worktrees/t/HEAD=ref: refs/heads/x~;f /w/m/.git/worktrees/t/commondir=../.. ~;f /w/m/.git/worktrees/t/gitdir=/w/t/.git~;f /w/m/.git/config=[core]~repositoryformatversion=0~\n\
git-file-target=>common^/w/t^-^g /w/m/.git;d /w/t/a;f /w/t/.git=gitdir: /w/m/.git/worktrees/t~;f /w/m/.git/worktrees/t/HEAD=ref: refs/heads/x~;f /w/m/.git/worktrees/t/commondir=../..~x~;f /w/m/.git/worktrees/t/gitdir=/w/t/.git~;f /w/m/.git/config=[core]~repositoryformatversion=0~\n\
git-file-target=>common^/w/t^-^g /w/m/.git;d /w/t/a;f /w/t/.git=gitdir: /w/m/.git/worktrees/t~;f /w/m/.git/worktrees/t/HEAD=ref: refs/heads/x~;f /w/m/.git/worktrees/t/commondir=HEAD~;f /w/m/.git/worktrees/t/gitdir=/w/t/.git~;f /w/m/.git/config=[core]~repositoryformatversion=0~\n\
found - /w/r /w/r/.git /w/r/.git=>common^/w/r/a/b^-^g /w/.git;d /w/r/a/b;g /w/r/.git;d /w/r/.git/o;f /w/r/.git/commondir=../.git\x00x~\n\
found - /w/r /w/r/.git /w/r/.git=>version 01^/w/r/a^-^g /w/r/.git;d /w/r/a/b;f /w/r/.git/config=[core]~repositoryformatversion=01~\n\
found - /w/r /w/r/.git /w/r/.git=>version 00^/w/r/a^-^g /w/r/.git;d /w/r/a/b;f /w/r/.git/config=[core]~repositoryformatversion=00~\n\
found - /w/r /w/r/.git /w/r/.git=>version 0x1^/w/r/a^-^g /w/r/.git;d /w/r/a/b;f /w/r/.git/config=[core]~repositoryformatversion=0x1~\n\
found - /w/r /w/r/.git /w/r/.git=>version +1^/w/r/a^-^g /w/r/.git;d /w/r/a/b;f /w/r/.git/config=[core]~repositoryformatversion=+1~\n\
found - /w/r /w/r/.git /w/r/.git=>version -0^/w/r/a^-^g /w/r/.git;d /w/r/a/b;f /w/r/.git/config=[core]~repositoryformatversion=-0~\n\
found - /w/r /w/r/.git /w/r/.git=>version  1^/w/r/a^-^g /w/r/.git;d /w/r/a/b;f /w/r/.git/config=[core]~repositoryformatversion=\" 1\"~\n\
version 2048=>version 2k^/w/r/a^-^g /w/r/.git;d /w/r/a/b;f /w/r/.git/config=[core]~repositoryformatversion=2k~\n\
found - /w/r /w/r/.git /w/r/.git=>version -1^/w/r/a^-^g /w/r/.git;d /w/r/a/b;f /w/r/.git/config=[core]~repositoryformatversion=-1~\n\
found - /w/r /w/r/.git /w/r/.git=>version -2^/w/r/a^-^g /w/r/.git;d /w/r/a/b;f /w/r/.git/config=[core]~repositoryformatversion=-2~\n\
value core.bare=>found - /w/r /w/r/.git /w/r/.git^/w/r/a^-^g /w/r/.git;d /w/r/a/b;f /w/r/.git/config=[core]~repositoryformatversion=0~bare=maybe~bare=no~\n\
value core.worktree=>found - /w/r /w/r/.git /w/r/.git^/w/r/a^-^g /w/r/.git;d /w/r/a/b;f /w/r/.git/config=[core]~repositoryformatversion=0~worktree~worktree=..~\n\
value core.bare=>found - /w/r /w/r/.git /w/r/.git^/w/r/a^-^g /w/r/.git;d /w/r/a/b;f /w/r/.git/config=[core]~bare=maybe~\n\
value core.worktree=>found - /w/r /w/r/.git /w/r/.git^/w/r/a^-^g /w/r/.git;d /w/r/a/b;f /w/r/.git/config=[core]~worktree~\n\
value extensions.worktreeconfig=>found - /w/r /w/r/.git /w/r/.git^/w/r/a^-^g /w/r/.git;d /w/r/a/b;f /w/r/.git/config=[core]~repositoryformatversion=0~[extensions]~worktreeconfig=maybe~worktreeconfig=no~\n\
version x=>found - /w/r /w/r/.git /w/r/.git^/w/r/a^-^g /w/r/.git;d /w/r/a/b;f /w/r/.git/config=[core]~repositoryformatversion=x~repositoryformatversion=0~\n\
value extensions.preciousobjects=>found - /w/r /w/r/.git /w/r/.git^/w/r/a^-^g /w/r/.git;d /w/r/a/b;f /w/r/.git/config=[core]~repositoryformatversion=0~[extensions]~preciousobjects=maybe~\n\
value extensions.preciousobjects=>found - /w/r /w/r/.git /w/r/.git^/w/r/a^-^g /w/r/.git;d /w/r/a/b;f /w/r/.git/config=[core]~repositoryformatversion=1~[extensions]~preciousobjects=maybe~\n\
extension objectformat=>found - /w/r /w/r/.git /w/r/.git^/w/r/a^-^g /w/r/.git;d /w/r/a/b;f /w/r/.git/config=[extensions]~objectformat=md5~\n\
value extensions.worktreeconfig=>found - /w/r /w/r/.git /w/r/.git^/w/r/a^-^g /w/r/.git;d /w/r/a/b;f /w/r/.git/config=[extensions]~worktreeconfig=maybe~\n\
value core.bare=>version 2^/w/r/a^-^g /w/r/.git;d /w/r/a/b;f /w/r/.git/config=[core]~repositoryformatversion=2~bare=maybe~\n\
value core.bare=>extension x^/w/r/a^-^g /w/r/.git;d /w/r/a/b;f /w/r/.git/config=[core]~repositoryformatversion=1~bare=maybe~[extensions]~x~\n\
value extensions.worktreeconfig=>extension x^/w/r/a^-^g /w/r/.git;d /w/r/a/b;f /w/r/.git/config=[core]~repositoryformatversion=1~[extensions]~x~worktreeconfig=maybe~\n\
value core.worktree=>config^/w/r/a^-^g /w/r/.git;d /w/r/a/b;f /w/r/.git/config=[core]~repositoryformatversion=0~worktree~[x~\n\
value core.bare=>config^/w/r/a^-^g /w/r/.git;d /w/r/a/b;f /w/r/.git/config=[core]~repositoryformatversion=0~bare=maybe~[x~\n\
bare=>sha256^/w/r/a^-^g /w/r/.git;d /w/r/a/b;f /w/r/.git/config=[core]~repositoryformatversion=1~bare=true~worktree=/w/o~[extensions]~objectformat=sha256~\n\
extension x=>sha256^/w/r/a^-^g /w/r/.git;d /w/r/a/b;f /w/r/.git/config=[core]~repositoryformatversion=1~[extensions]~objectformat=sha256~x~\n\
extension refstorage=>found - /w/r /w/r/.git /w/r/.git^/w/r/a^-^g /w/r/.git;d /w/r/a/b;f /w/r/.git/config=[core]~repositoryformatversion=1~[extensions]~refstorage=files~\n\
extension refstorage=>found - /w/r /w/r/.git /w/r/.git^/w/r/a^-^g /w/r/.git;d /w/r/a/b;f /w/r/.git/config=[core]~repositoryformatversion=1~[extensions]~refStorage=files~\n\
extension relativeworktrees=>found - /w/r /w/r/.git /w/r/.git^/w/r/a^-^g /w/r/.git;d /w/r/a/b;f /w/r/.git/config=[core]~repositoryformatversion=1~[extensions]~relativeworktrees=true~\n\
no-work-tree=>value core.worktree^/w/r/a^-^g /w/r/.git;d /w/r/a/b;f /w/r/.git/config=[core]~repositoryformatversion=0~worktree=~\n\
found - /w/o /w/r/.git /w/r/.git=>bare^/w/r/.git^-^g /w/r/.git;d /w/r/a/b;d /w/o;f /w/r/.git/config=[core]~repositoryformatversion=0~worktree=/w/o~\n\
found - /w/o /w/r/.git /w/r/.git=>bare^/w/r/.git/refs^-^g /w/r/.git;d /w/r/a/b;d /w/o;f /w/r/.git/config=[core]~repositoryformatversion=0~worktree=/w/o~\n\
found - /w/s/n /w/s/.git/modules/n /w/s/.git/modules/n=>bare^/w/s/.git/modules/n/refs^-^g /w/s/.git;g /w/s/.git/modules/n;f /w/s/.git/modules/n/config=[core]~repositoryformatversion=0~bare=false~worktree=../../../n~;d /w/s/n/a;f /w/s/n/.git=gitdir: ../.git/modules/n~\n\
version 2=>bare^/w/b^-^g /w/b;f /w/b/config=[core]~repositoryformatversion=2~\n\
value core.bare=>bare^/w/b^-^g /w/b;f /w/b/config=[core]~bare=maybe~\n\
extension x=>bare^/w/b^-^g /w/b;f /w/b/config=[core]~repositoryformatversion=1~[extensions]~x~\n\
config=>bare^/w/b^-^g /w/b;f /w/b/config=[core]~x y~\n\
found - /w/o /w/r/.git /w/r/.git=>no-work-tree^/w/r/a^-^g /w/r/.git;d /w/r/a/b;d /w/o;f /w/f=x;f /w/r/.git/config=[core]~repositoryformatversion=0~worktree=/w/f/../o~\n\
no-repository=>found - /w/r /w/r/.git /w/r/.git^/w/r/a/b^/w/r/f/..^g /w/r/.git;d /w/r/a/b;f /w/r/f=x\n\
found - /w/r /w/r/g /w/r/g=>git-file-target^/w/r^-^g /w/r/g;f /w/r/.git=gitdir: g\x00x~\n\
";
