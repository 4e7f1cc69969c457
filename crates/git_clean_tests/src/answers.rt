//! What git would remove; made by `scripts/ask-git-clean` with git version 2.39.5.
//!
//! A row has the number of the tree, the directory, the options, parted by `|`, the path specs, and
//! what git prints to its output, with `$` in the place of each LF. Of a path spec there is how git
//! tells it, `&`, and how it is from the top; specs are parted by `|`. A tree has its setup, and
//! its steps, parted by `;`: `d` is a directory, `f` a file with its text, `x` one with its bytes
//! in hexadecimal digits, `l` a link, and `p` a pipe.

/// The setups and the trees, one a line.
pub const TREES: &[u8] = b"\
git_dir /w/r/.git$current_dir /w/r$option for_deletion nonbare$option strict_parents yes$index 100644 0 - 8326e08e379b5161997a1ff46f9e0f95c04017b0 .gitignore$index 100644 0 - 587be6b4c3f93f93c489c0111bba5596147a26cb gone/tr$index 100644 0 - 587be6b4c3f93f93c489c0111bba5596147a26cb repl$index 100644 0 - 587be6b4c3f93f93c489c0111bba5596147a26cb t/a$^d /w/h;l /w/r/lt=t;f /w/r/.gitignore=*.o$build/$;l /w/r/ln.o=nowhere;f /w/r/o.o=x$;f /w/r/top=x$;d /w/r/.git/objects;d /w/r/.git/refs;f /w/r/.git/HEAD=ref: refs/heads/main$;f /w/r/.git/config=[core]$\trepositoryformatversion = 0$\tfilemode = true$\tbare = false$\tlogallrefupdates = true$;x /w/r/.git/index=444952430000000200000004000000000000000000000000000000000000000000000000000081a40000000000000000000000008326e08e379b5161997a1ff46f9e0f95c04017b0000a2e67697469676e6f72650000000000000000000000000000000000000000000000000000000000000000000081a4000000000000000000000000587be6b4c3f93f93c489c0111bba5596147a26cb0007676f6e652f7472000000000000000000000000000000000000000000000000000000000081a4000000000000000000000000587be6b4c3f93f93c489c0111bba5596147a26cb00047265706c000000000000000000000000000000000000000000000000000000000000000081a4000000000000000000000000587be6b4c3f93f93c489c0111bba5596147a26cb0003742f6100000000000000b708da17b60087b1494bba0bf4daa88b6e3af3f0;d /w/r/.git/info;f /w/r/build/h.o=x$;f /w/r/build/sub/g=x$;d /w/r/empty;p /w/r/fd/p;f /w/r/gone/un=x$;f /w/r/mix/z.o=x$;f /w/r/mix/a/k=x$;f /w/r/mix/ign/build/q=x$;f /w/r/onlyign/z.o=x$;f /w/r/onlyign/s/y.o=x$;f /w/r/repl/in=x$;f /w/r/t/a=x$;f /w/r/t/b.o=x$;f /w/r/t/n=x$;p /w/r/t/pipe;f /w/r/t/new/f=x$;d /w/r/t/new/sub;f /w/r/u/y.o=x$;f /w/r/u/v/x=x$;f /w/r/w/x/f=x$\n\
git_dir /w/r/.git$current_dir /w/r$option for_deletion nonbare$option strict_parents yes$index 100644 0 - 2542ced6c8c1e9c6ac0521b44f9d26b8dbfbb558 .gitignore$^d /w/h;f /w/r/.gitignore=*.o$ign/$;d /w/r/.git/objects;d /w/r/.git/refs;f /w/r/.git/HEAD=ref: refs/heads/main$;f /w/r/.git/config=[core]$\trepositoryformatversion = 0$\tfilemode = true$\tbare = false$\tlogallrefupdates = true$;x /w/r/.git/index=444952430000000200000001000000000000000000000000000000000000000000000000000081a40000000000000000000000002542ced6c8c1e9c6ac0521b44f9d26b8dbfbb558000a2e67697469676e6f726500000000000000003cc7fc2acb19e9295c28b8ef720facdbf2dc88a3;d /w/r/.git/info;f /w/r/ign/e/f=x$;d /w/r/ign/rep/.git/objects;d /w/r/ign/rep/.git/refs;f /w/r/ign/rep/.git/HEAD=ref: refs/heads/master$;f /w/r/ign/rep/.git/config=[core]$\trepositoryformatversion = 0$\tfilemode = true$\tbare = false$\tlogallrefupdates = true$;f /w/r/ign/rep/.git/info/exclude=# git ls-files --others --exclude-from=.git/info/exclude$# Lines that start with '#' are comments.$# For a project mostly in C, the following would be a good set of$# exclude patterns (uncomment them if you want to use them):$# *.[oa]$# *~$;d /w/r/j/only/.git/objects;d /w/r/j/only/.git/refs;f /w/r/j/only/.git/HEAD=ref: refs/heads/master$;f /w/r/j/only/.git/config=[core]$\trepositoryformatversion = 0$\tfilemode = true$\tbare = false$\tlogallrefupdates = true$;f /w/r/j/only/.git/info/exclude=# git ls-files --others --exclude-from=.git/info/exclude$# Lines that start with '#' are comments.$# For a project mostly in C, the following would be a good set of$# exclude patterns (uncomment them if you want to use them):$# *.[oa]$# *~$;d /w/r/k/bare/objects;d /w/r/k/bare/refs;f /w/r/k/bare/HEAD=ref: refs/heads/master$;f /w/r/k/bare/config=[core]$\trepositoryformatversion = 0$\tfilemode = true$\tbare = true$;f /w/r/k/bare/info/exclude=# git ls-files --others --exclude-from=.git/info/exclude$# Lines that start with '#' are comments.$# For a project mostly in C, the following would be a good set of$# exclude patterns (uncomment them if you want to use them):$# *.[oa]$# *~$;f /w/r/k/l/x=x$;f /w/r/m/f=x$;d /w/r/m/rep/.git/objects;d /w/r/m/rep/.git/refs;f /w/r/m/rep/.git/HEAD=ref: refs/heads/master$;f /w/r/m/rep/.git/config=[core]$\trepositoryformatversion = 0$\tfilemode = true$\tbare = false$\tlogallrefupdates = true$;f /w/r/m/rep/.git/info/exclude=# git ls-files --others --exclude-from=.git/info/exclude$# Lines that start with '#' are comments.$# For a project mostly in C, the following would be a good set of$# exclude patterns (uncomment them if you want to use them):$# *.[oa]$# *~$;f /w/r/p/z=x$;f /w/r/p/q/r/g=x$;d /w/r/p/q/rep/.git/objects;d /w/r/p/q/rep/.git/refs;f /w/r/p/q/rep/.git/HEAD=ref: refs/heads/master$;f /w/r/p/q/rep/.git/config=[core]$\trepositoryformatversion = 0$\tfilemode = true$\tbare = false$\tlogallrefupdates = true$;f /w/r/p/q/rep/.git/info/exclude=# git ls-files --others --exclude-from=.git/info/exclude$# Lines that start with '#' are comments.$# For a project mostly in C, the following would be a good set of$# exclude patterns (uncomment them if you want to use them):$# *.[oa]$# *~$;d /w/r/rep/.git/objects;d /w/r/rep/.git/refs;f /w/r/rep/.git/HEAD=ref: refs/heads/master$;f /w/r/rep/.git/config=[core]$\trepositoryformatversion = 0$\tfilemode = true$\tbare = false$\tlogallrefupdates = true$;f /w/r/rep/.git/info/exclude=# git ls-files --others --exclude-from=.git/info/exclude$# Lines that start with '#' are comments.$# For a project mostly in C, the following would be a good set of$# exclude patterns (uncomment them if you want to use them):$# *.[oa]$# *~$\n\
git_dir /w/r/.git$current_dir /w/r$option for_deletion nonbare$option strict_parents yes$index 100644 0 - 587be6b4c3f93f93c489c0111bba5596147a26cb a b$index 100644 0 - 587be6b4c3f93f93c489c0111bba5596147a26cb d\\5ce/z$^d /w/h;f /w/r/a b=x$;f /w/r/a\"b=x$;f /w/r/q\tt=x$;f /w/r/x\x01y=x$;f /w/r/\xc3\xa9=x$;d /w/r/.git/objects;d /w/r/.git/refs;f /w/r/.git/HEAD=ref: refs/heads/main$;f /w/r/.git/config=[core]$\trepositoryformatversion = 0$\tfilemode = true$\tbare = false$\tlogallrefupdates = true$;x /w/r/.git/index=444952430000000200000002000000000000000000000000000000000000000000000000000081a4000000000000000000000000587be6b4c3f93f93c489c0111bba5596147a26cb000361206200000000000000000000000000000000000000000000000000000000000000000081a4000000000000000000000000587be6b4c3f93f93c489c0111bba5596147a26cb0005645c652f7a00000000009509bb60157d4b5138e02799a7eb04b34f21610f;d /w/r/.git/info;f /w/r/d\\e/z=x$;f /w/r/n\tl/y=x$\n\
git_dir /w/r/.git$current_dir /w/r$option for_deletion nonbare$option strict_parents yes$^d /w/h;f /w/r/d=x$;d /w/r/.git/objects;d /w/r/.git/refs;f /w/r/.git/HEAD=ref: refs/heads/main$;f /w/r/.git/config=[core]$\trepositoryformatversion = 0$\tfilemode = true$\tbare = false$\tlogallrefupdates = true$;d /w/r/.git/info;f /w/r/a/b/c=x$\n\
git_dir /w/r/.git$current_dir /w/r$option for_deletion nonbare$option strict_parents yes$global *.u$global k/$index 100644 0 - 6aa9f6d7f691151ab6f34e58382dfcdf51ea45cf .gitmodules$index 100644 0 - 89db367c5fbf568fa02d19447557fb8e1b0ae5e5 a/.gitignore$index 160000 0 - c46f9e7f62aef384fb09ffd76aea54910337c9e9 s$worktree s$^f /w/h/.config/git/ignore=*.u$;d /w/m/.git/objects;d /w/m/.git/refs;f /w/m/.git/HEAD=ref: refs/heads/master$;f /w/m/.git/config=[core]$\trepositoryformatversion = 0$\tfilemode = true$\tbare = false$\tlogallrefupdates = true$;x /w/m/.git/index=4449524300000002000000005452454500000019003020300a4b825dc642cb6eb9a060e54bf8d69288fbee490472d53f787d86a932a25a8537cee236d81846a8f1;f /w/m/.git/info/exclude=# git ls-files --others --exclude-from=.git/info/exclude$# Lines that start with '#' are comments.$# For a project mostly in C, the following would be a good set of$# exclude patterns (uncomment them if you want to use them):$# *.[oa]$# *~$;f /w/r/.gitignore=*.x$!keep.x$;f /w/r/.gitmodules=[submodule \"s\"]$\tpath = s$\turl = ../m$;f /w/r/1.x=x$;f /w/r/keep.x=x$;f /w/r/s.z=x$;d /w/r/.git/objects;d /w/r/.git/refs;f /w/r/.git/HEAD=ref: refs/heads/main$;f /w/r/.git/config=[core]$\trepositoryformatversion = 0$\tfilemode = true$\tbare = false$\tlogallrefupdates = true$[submodule \"s\"]$\turl = /w/m$\tactive = true$;x /w/r/.git/index=444952430000000200000003000000000000000000000000000000000000000000000000000081a40000000000000000000000006aa9f6d7f691151ab6f34e58382dfcdf51ea45cf000b2e6769746d6f64756c657300000000000000000000000000000000000000000000000000000000000000000081a400000000000000000000000089db367c5fbf568fa02d19447557fb8e1b0ae5e5000c612f2e67697469676e6f72650000000000000000000000000000000000000000000000000000000000000000e000000000000000000000000000c46f9e7f62aef384fb09ffd76aea54910337c9e900017300992a35a2841aa730de8598d51cad84d0b7a17408;f /w/r/.git/info/exclude=k/$;d /w/r/.git/modules/s/objects;d /w/r/.git/modules/s/refs;f /w/r/.git/modules/s/HEAD=ref: refs/heads/master$;f /w/r/.git/modules/s/config=[core]$\trepositoryformatversion = 0$\tfilemode = true$\tbare = false$\tlogallrefupdates = true$\tworktree = ../../../s$[remote \"origin\"]$\turl = /w/m$\tfetch = +refs/heads/*:refs/remotes/origin/*$[branch \"master\"]$\tremote = origin$\tmerge = refs/heads/master$;x /w/r/.git/modules/s/index=4449524300000002000000005452454500000019003020300a4b825dc642cb6eb9a060e54bf8d69288fbee490472d53f787d86a932a25a8537cee236d81846a8f1;f /w/r/.git/modules/s/info/exclude=# git ls-files --others --exclude-from=.git/info/exclude$# Lines that start with '#' are comments.$# For a project mostly in C, the following would be a good set of$# exclude patterns (uncomment them if you want to use them):$# *.[oa]$# *~$;f /w/r/a/.gitignore=!*.x$;f /w/r/a/2.x=x$;f /w/r/a/b/.gitignore=/c$;f /w/r/a/b/3.x=x$;f /w/r/a/b/c/4.u=x$;f /w/r/k/5.u=x$;f /w/r/k/l/6=x$;f /w/r/k/l/keep.x=x$;f /w/r/s/.git=gitdir: ../.git/modules/s$;f /w/r/s/new=x$;f /w/r/x/1=x$;f /w/r/x/2.x=x$\n\
git_dir /w/r/.git$current_dir /w/r$option for_deletion nonbare$option strict_parents yes$index 100644 0 - 5761abcfdf0c26a75374c945dfe366eaeee04285 .gitignore$^d /w/h;f /w/r/.gitignore=*.o$;d /w/r/.git/objects;d /w/r/.git/refs;f /w/r/.git/HEAD=ref: refs/heads/main$;f /w/r/.git/config=[core]$\trepositoryformatversion = 0$\tfilemode = true$\tbare = false$\tlogallrefupdates = true$;x /w/r/.git/index=444952430000000200000001000000000000000000000000000000000000000000000000000081a40000000000000000000000005761abcfdf0c26a75374c945dfe366eaeee04285000a2e67697469676e6f72650000000000000000ebab26b2ecb3fcfed50247ffea24ec952e9633e0;d /w/r/.git/info;f /w/r/p/o.o=x$;f /w/r/p/g/f=x$;f /w/r/p/g/o.o=x$;d /w/r/p/g/.git/objects;d /w/r/p/g/.git/refs;f /w/r/p/g/.git/HEAD=ref:refs/heads/x$;f /w/r/p/g/.git/config=[core]$\trepositoryformatversion = 0$\tfilemode = true$\tbare = false$\tlogallrefupdates = true$;f /w/r/p/g/.git/info/exclude=# git ls-files --others --exclude-from=.git/info/exclude$# Lines that start with '#' are comments.$# For a project mostly in C, the following would be a good set of$# exclude patterns (uncomment them if you want to use them):$# *.[oa]$# *~$;f /w/r/p/g/s/h=x$\n\
git_dir /w/r/.git$current_dir /w/r$option for_deletion nonbare$option strict_parents yes$index 100644 0 - 5761abcfdf0c26a75374c945dfe366eaeee04285 .gitignore$index 100644 0 - 587be6b4c3f93f93c489c0111bba5596147a26cb t/a$^d /w/h;f /w/r/.gitignore=*.o$;d /w/r/.git/objects;d /w/r/.git/refs;f /w/r/.git/HEAD=ref: refs/heads/main$;f /w/r/.git/config=[core]$\trepositoryformatversion = 0$\tfilemode = true$\tbare = false$\tlogallrefupdates = true$;x /w/r/.git/index=444952430000000200000002000000000000000000000000000000000000000000000000000081a40000000000000000000000005761abcfdf0c26a75374c945dfe366eaeee04285000a2e67697469676e6f72650000000000000000000000000000000000000000000000000000000000000000000081a4000000000000000000000000587be6b4c3f93f93c489c0111bba5596147a26cb0003742f6100000000000000651e078bb4771f2b970ea28d6ecfc04724d39d84;d /w/r/.git/info;f /w/r/t/a=x$;f /w/r/u/y=x$;f /w/r/u/v/x=x$;f /w/r/w/g=x$;f /w/r/w/x/f=x$;f /w/r/wa/i=x$;f /w/r/wa/b/h=x$\n\
git_dir /w/r/.git$current_dir /w/r$option for_deletion nonbare$option strict_parents yes$index 100644 0 - 5761abcfdf0c26a75374c945dfe366eaeee04285 .gitignore$index 100644 0 - 587be6b4c3f93f93c489c0111bba5596147a26cb bt/x$index 100644 0 - 587be6b4c3f93f93c489c0111bba5596147a26cb t/a$^d /w/h;f /w/r/.gitignore=*.o$;f /w/r/top=x$;d /w/r/.git/objects;d /w/r/.git/refs;f /w/r/.git/HEAD=ref: refs/heads/main$;f /w/r/.git/config=[core]$\trepositoryformatversion = 0$\tfilemode = true$\tbare = false$\tlogallrefupdates = true$;x /w/r/.git/index=444952430000000200000003000000000000000000000000000000000000000000000000000081a40000000000000000000000005761abcfdf0c26a75374c945dfe366eaeee04285000a2e67697469676e6f72650000000000000000000000000000000000000000000000000000000000000000000081a4000000000000000000000000587be6b4c3f93f93c489c0111bba5596147a26cb000462742f78000000000000000000000000000000000000000000000000000000000000000081a4000000000000000000000000587be6b4c3f93f93c489c0111bba5596147a26cb0003742f61000000000000005c74d0f99f9805cedf2b872e559551692b9019bb;d /w/r/.git/info;f /w/r/Bc/x=x$;f /w/r/ab/x=x$;f /w/r/ab/c/y=x$;f /w/r/ab/c/e/w=x$;f /w/r/b1/x=x$;f /w/r/b1/s/y=x$;f /w/r/b1/s/d/h=x$;d /w/r/be;f /w/r/bi.o/x=x$;d /w/r/brep/.git/objects;d /w/r/brep/.git/refs;f /w/r/brep/.git/HEAD=ref: refs/heads/master$;f /w/r/brep/.git/config=[core]$\trepositoryformatversion = 0$\tfilemode = true$\tbare = false$\tlogallrefupdates = true$;f /w/r/brep/.git/info/exclude=# git ls-files --others --exclude-from=.git/info/exclude$# Lines that start with '#' are comments.$# For a project mostly in C, the following would be a good set of$# exclude patterns (uncomment them if you want to use them):$# *.[oa]$# *~$;f /w/r/bt/n=x$;f /w/r/bt/x=x$;f /w/r/bt/bu/z=x$;f /w/r/bt/bu/k/g=x$;f /w/r/q/y=x$;f /w/r/q/b2/x=x$;f /w/r/q2/b3/x=x$;f /w/r/q3/b8/h.o=x$;f /w/r/r/b4/g.o=x$;f /w/r/r/b4/in/f=x$;d /w/r/r/brep/.git/objects;d /w/r/r/brep/.git/refs;f /w/r/r/brep/.git/HEAD=ref: refs/heads/master$;f /w/r/r/brep/.git/config=[core]$\trepositoryformatversion = 0$\tfilemode = true$\tbare = false$\tlogallrefupdates = true$;f /w/r/r/brep/.git/info/exclude=# git ls-files --others --exclude-from=.git/info/exclude$# Lines that start with '#' are comments.$# For a project mostly in C, the following would be a good set of$# exclude patterns (uncomment them if you want to use them):$# *.[oa]$# *~$;f /w/r/t/a=x$;f /w/r/t/bn/x=x$;f /w/r/t/bn/b/y=x$;f /w/r/z/f=x$;d /w/r/z/be\n\
";

/// What git would remove.
pub const ROWS: &[u8] = b"\
0^^^^Would remove gone/un$Would remove lt$Would remove t/n$Would remove top$\n\
0^^-d^^Would remove empty/$Would remove fd/$Would remove gone/un$Would remove lt$Would remove mix/a/$Would remove t/n$Would remove t/new/$Would remove top$Would remove u/v/$Would remove w/$\n\
0^^-x^^Would remove gone/un$Would remove ln.o$Would remove lt$Would remove o.o$Would remove t/b.o$Would remove t/n$Would remove top$\n\
0^^-X^^Would remove ln.o$Would remove mix/z.o$Would remove o.o$Would remove t/b.o$Would remove u/y.o$\n\
0^^-d|-x^^Would remove build/$Would remove empty/$Would remove fd/$Would remove gone/un$Would remove ln.o$Would remove lt$Would remove mix/$Would remove o.o$Would remove onlyign/$Would remove t/b.o$Would remove t/n$Would remove t/new/$Would remove top$Would remove u/$Would remove w/$\n\
0^^-d|-X^^Would remove build/$Would remove ln.o$Would remove mix/ign/$Would remove mix/z.o$Would remove o.o$Would remove onlyign/$Would remove t/b.o$Would remove u/y.o$\n\
0^^-d|-f|-f^^Would remove empty/$Would remove fd/$Would remove gone/un$Would remove lt$Would remove mix/a/$Would remove t/n$Would remove t/new/$Would remove top$Would remove u/v/$Would remove w/$\n\
0^^-d|-X|-f|-f^^Would remove build/$Would remove ln.o$Would remove mix/ign/$Would remove mix/z.o$Would remove o.o$Would remove onlyign/$Would remove t/b.o$Would remove u/y.o$\n\
0^^-d|-q^^\n\
0^^-d|-x|-f|-f^^Would remove build/$Would remove empty/$Would remove fd/$Would remove gone/un$Would remove ln.o$Would remove lt$Would remove mix/$Would remove o.o$Would remove onlyign/$Would remove t/b.o$Would remove t/n$Would remove t/new/$Would remove top$Would remove u/$Would remove w/$\n\
0^^^u&::u^Would remove u/v/$\n\
0^^^u/v&::u/v^Would remove u/v/$\n\
0^^^u/v/x&::u/v/x^Would remove u/v/x$\n\
0^^^w&::w^Would remove w/$\n\
0^^^w/x&::w/x^Would remove w/x/$\n\
0^^^t&::t^Would remove t/n$Would remove t/new/$\n\
0^^^t/n&::t/n^Would remove t/n$\n\
0^^^t/b.o&::t/b.o^\n\
0^^^*x&::*x^Would remove u/v/x$\n\
0^^^w*&::w*^Would remove w/$\n\
0^^^:(glob)w*&:(glob)w*^\n\
0^^^:(glob)w/*&:(glob)w/*^\n\
0^^^:(glob)**/x&:(glob)**/x^Would remove u/v/x$\n\
0^^^top&::top|u&::u^Would remove top$Would remove u/v/$\n\
0^^^w/x&::w/x|w&::w^Would remove w/x/$\n\
0^^^w&::w|w/x/f&::w/x/f^Would remove w/x/f$\n\
0^^^.&::.|:!w&:!:w^Would remove empty/$Would remove fd/$Would remove gone/un$Would remove lt$Would remove mix/a/$Would remove t/n$Would remove t/new/$Would remove top$Would remove u/v/$\n\
0^^^lt&::lt^Would remove lt$\n\
0^^^:!t&:!:t|&:(literal)^Would remove empty/$Would remove fd/$Would remove gone/un$Would remove lt$Would remove mix/a/$Would remove top$Would remove u/v/$Would remove w/$\n\
0^^^empty&::empty^Would remove empty/$\n\
0^^^emp*&::emp*^Would remove empty/$\n\
0^^^nowhere&::nowhere^\n\
0^^^fd&::fd^Would remove fd/$\n\
0^^^repl&::repl^\n\
0^^^gone&::gone^Would remove gone/un$\n\
0^^^:(icase)TOP&:(icase)TOP^Would remove top$\n\
0^^^onlyign&::onlyign^\n\
0^^^mix&::mix^Would remove mix/a/$\n\
0^^^build&::build^\n\
0^^^build/sub&::build/sub^\n\
0^^^o.o&::o.o^\n\
0^^^:/t&:/:t^Would remove t/n$Would remove t/new/$\n\
0^^-x^build/sub&::build/sub^Would remove build/sub/$\n\
0^^-x^onlyign/s&::onlyign/s^Would remove onlyign/s/$\n\
0^^-x^*.o&::*.o^Would remove build/h.o$Would remove ln.o$Would remove mix/z.o$Would remove o.o$Would remove onlyign/s/y.o$Would remove onlyign/z.o$Would remove t/b.o$Would remove u/y.o$\n\
0^^-X^onlyign&::onlyign^Would remove onlyign/$\n\
0^^-X^onlyign/s&::onlyign/s^Would remove onlyign/s/$\n\
0^^-X^t&::t^Would remove t/b.o$\n\
0^^-X^u&::u|t&::t^Would remove t/b.o$Would remove u/y.o$\n\
0^^-X^mix&::mix^Would remove mix/ign/$Would remove mix/z.o$\n\
0^^-X^build&::build^Would remove build/$\n\
0^^-X^t/b.o&::t/b.o^Would remove t/b.o$\n\
0^^-X^onlyign/*&::onlyign/*^Would remove onlyign/$\n\
0^^-d^top&::top^Would remove top$\n\
0^^-q^w&::w^\n\
0^^-d^:/&:/:^Would remove empty/$Would remove fd/$Would remove gone/un$Would remove lt$Would remove mix/a/$Would remove t/n$Would remove t/new/$Would remove top$Would remove u/v/$Would remove w/$\n\
0^^-f|-f^w&::w^Would remove w/$\n\
0^^-x|-e*.o^^Would remove gone/un$Would remove lt$Would remove t/n$Would remove top$\n\
0^^-d|-x|-e*.o^^Would remove build/sub/$Would remove empty/$Would remove fd/$Would remove gone/un$Would remove lt$Would remove mix/a/$Would remove mix/ign/$Would remove t/n$Would remove t/new/$Would remove top$Would remove u/v/$Would remove w/$\n\
0^^-d|-x|-eu/|-e!u/v^^Would remove build/$Would remove empty/$Would remove fd/$Would remove gone/un$Would remove ln.o$Would remove lt$Would remove mix/$Would remove o.o$Would remove onlyign/$Would remove t/b.o$Would remove t/n$Would remove t/new/$Would remove top$Would remove w/$\n\
0^^-d|-x|-ebuild^^Would remove empty/$Would remove fd/$Would remove gone/un$Would remove ln.o$Would remove lt$Would remove mix/a/$Would remove mix/z.o$Would remove o.o$Would remove onlyign/$Would remove t/b.o$Would remove t/n$Would remove t/new/$Would remove top$Would remove u/$Would remove w/$\n\
0^^-x|-esub^build/h.o&::build/h.o^Would remove build/h.o$\n\
0^^-d|-x|-ex^^Would remove build/$Would remove empty/$Would remove fd/$Would remove gone/un$Would remove ln.o$Would remove lt$Would remove mix/$Would remove o.o$Would remove onlyign/$Would remove t/b.o$Would remove t/n$Would remove t/new/$Would remove top$Would remove u/y.o$\n\
0^^-d|-x|-e!*.o|-eo.o^^Would remove build/$Would remove empty/$Would remove fd/$Would remove gone/un$Would remove ln.o$Would remove lt$Would remove mix/$Would remove onlyign/$Would remove t/b.o$Would remove t/n$Would remove t/new/$Would remove top$Would remove u/$Would remove w/$\n\
0^^-d|-x|-e/top|-e/t/^^Would remove build/$Would remove empty/$Would remove fd/$Would remove gone/un$Would remove ln.o$Would remove lt$Would remove mix/$Would remove o.o$Would remove onlyign/$Would remove u/$Would remove w/$\n\
0^^-d|-x|-eempty^^Would remove build/$Would remove fd/$Would remove gone/un$Would remove ln.o$Would remove lt$Would remove mix/$Would remove o.o$Would remove onlyign/$Would remove t/b.o$Would remove t/n$Would remove t/new/$Would remove top$Would remove u/$Would remove w/$\n\
0^^-d|-x|-elt|-ep^^Would remove build/$Would remove empty/$Would remove fd/$Would remove gone/un$Would remove ln.o$Would remove mix/$Would remove o.o$Would remove onlyign/$Would remove t/b.o$Would remove t/n$Would remove t/new/$Would remove top$Would remove u/$Would remove w/$\n\
0^^-d|-x|-e/gone^^Would remove build/$Would remove empty/$Would remove fd/$Would remove ln.o$Would remove lt$Would remove mix/$Would remove o.o$Would remove onlyign/$Would remove t/b.o$Would remove t/n$Would remove t/new/$Would remove top$Would remove u/$Would remove w/$\n\
0^^-x|-ef^w&::w^\n\
0^^-d|-x|-emix/ign/^^Would remove build/$Would remove empty/$Would remove fd/$Would remove gone/un$Would remove ln.o$Would remove lt$Would remove mix/a/$Would remove mix/z.o$Would remove o.o$Would remove onlyign/$Would remove t/b.o$Would remove t/n$Would remove t/new/$Would remove top$Would remove u/$Would remove w/$\n\
0^^-d|-x|-e*^^\n\
0^u^-d|-x|-ey.o^u/&:(literal)u^Would remove v/$\n\
0^u^-x|-ev^u/&:(literal)u^\n\
0^u^-d|-x|-ex^..&::u/..^Would remove ../build/$Would remove ../empty/$Would remove ../fd/$Would remove ../gone/un$Would remove ../ln.o$Would remove ../lt$Would remove ../mix/$Would remove ../o.o$Would remove ../onlyign/$Would remove ../t/b.o$Would remove ../t/n$Would remove ../t/new/$Would remove ../top$Would remove y.o$\n\
0^w/x^-d|-x|-ef^w/x/&:(literal)w/x^\n\
0^w/x^-d|-x|-ew^..&::w/x/..^\n\
0^^^.&::.|?&::?^Would remove gone/un$Would remove lt$Would remove mix/a/k$Would remove repl/in$Would remove t/n$Would remove t/new/f$Would remove top$Would remove u/v/x$Would remove w/x/f$\n\
0^^-d^.&::.|?&::?^Would remove gone/un$Would remove lt$Would remove mix/a/k$Would remove repl/in$Would remove t/n$Would remove t/new/f$Would remove top$Would remove u/v/x$Would remove w/x/f$\n\
0^^^empty&::empty|?&::?^\n\
0^^-d|-x^empty&::empty|?&::?^\n\
0^^^empty&::empty|?mpty&::?mpty^\n\
0^^^.&::.|z*&::z*^Would remove empty/$Would remove fd/$Would remove gone/un$Would remove lt$Would remove mix/a/$Would remove t/n$Would remove t/new/$Would remove top$Would remove u/v/$Would remove w/$\n\
0^^^.&::.|empty/x&::empty/x^Would remove fd/$Would remove gone/un$Would remove lt$Would remove mix/a/$Would remove t/n$Would remove t/new/$Would remove top$Would remove u/v/$Would remove w/$\n\
0^u^^u/&:(literal)u^\n\
0^u^-d^u/&:(literal)u^Would remove v/$\n\
0^u^-X^u/&:(literal)u^Would remove y.o$\n\
0^u^-d|-X^u/&:(literal)u^Would remove y.o$\n\
0^u^-x^u/&:(literal)u^\n\
0^u^-d^..&::u/..^Would remove ../empty/$Would remove ../fd/$Would remove ../gone/un$Would remove ../lt$Would remove ../mix/a/$Would remove ../t/n$Would remove ../t/new/$Would remove ../top$Would remove v/$Would remove ../w/$\n\
0^u^^v&::u/v^Would remove v/$\n\
0^u^^../w&::u/../w^Would remove ../w/$\n\
0^u^^:/top&:/:top^Would remove ../top$\n\
0^u^-d^:!v&:!:u/v|&:(literal)u^\n\
0^u^^y.o&::u/y.o^\n\
0^t^^t/&:(literal)t^Would remove n$\n\
0^t^-d^t/&:(literal)t^Would remove n$Would remove new/$\n\
0^t^-X^t/&:(literal)t^Would remove b.o$\n\
0^t^-d^..&::t/..^Would remove ../empty/$Would remove ../fd/$Would remove ../gone/un$Would remove ../lt$Would remove ../mix/a/$Would remove n$Would remove new/$Would remove ../top$Would remove ../u/v/$Would remove ../w/$\n\
0^t^^new&::t/new^Would remove new/$\n\
0^t^^../top&::t/../top|new/f&::t/new/f^Would remove new/f$Would remove ../top$\n\
0^t^-d|-x^t/&:(literal)t^Would remove b.o$Would remove n$Would remove new/$\n\
0^t^-q^t/&:(literal)t^\n\
0^w^^.&::w/.|x/f&::w/x/f^Would refuse to remove current working directory$Would remove ./x$\n\
0^w^^..&::w/..|x/f&::w/x/f^Would remove ../empty/$Would remove ../fd/$Would remove ../gone/un$Would remove ../lt$Would remove ../mix/a/$Would remove ../t/n$Would remove ../t/new/$Would remove ../top$Would remove ../u/v/$Would remove x/f$\n\
0^w^^x&::w/x|x/f&::w/x/f^Would remove x/f$\n\
0^w^^x/&::w/x/|x/f&::w/x/f^Would remove x/$\n\
0^w/x^^w/x/&:(literal)w/x^\n\
0^w/x^-d^w/x/&:(literal)w/x^Would refuse to remove current working directory$Would remove ./f$\n\
0^w/x^^f&::w/x/f^Would remove f$\n\
0^w/x^^..&::w/x/..^Would refuse to remove current working directory$Would remove ../x/f$\n\
0^w/x^^../../top&::w/x/../../top^Would remove ../../top$\n\
0^w/x^-d|-q^w/x/&:(literal)w/x^Would refuse to remove current working directory$\n\
0^w/x^^..&::w/x/..|f&::w/x/f^Would refuse to remove current working directory$Would remove ../x/f$\n\
0^w/x^^../&::w/x/../|f&::w/x/f^Would refuse to remove current working directory$Would remove ../x/f$\n\
0^w/x^^.&::w/x/.|f&::w/x/f^Would refuse to remove current working directory$Would remove ./f$\n\
0^mix/a^-d^mix/a/&:(literal)mix/a^Would refuse to remove current working directory$Would remove ./k$\n\
0^mix/a^^mix/a/&:(literal)mix/a^\n\
0^mix/a^^../a&::mix/a/../a^Would refuse to remove current working directory$Would remove ./k$\n\
0^mix/a^^k&::mix/a/k^Would remove k$\n\
0^build^-d^build/&:(literal)build^\n\
0^build^-X^build/&:(literal)build^\n\
0^build^^build/&:(literal)build^\n\
0^build^-x^build/&:(literal)build^\n\
0^build^-d|-x^sub&::build/sub^Would remove sub/$\n\
0^gone^^gone/&:(literal)gone^Would remove un$\n\
0^gone^-d^gone/&:(literal)gone^Would remove un$\n\
1^^^^\n\
1^^-d^^Would skip repository j/only$Would remove k/$Would skip repository m/rep$Would remove m/f$Would skip repository p/q/rep$Would remove p/q/r$Would remove p/z$\n\
1^^-X^^\n\
1^^-d|-x^^Would skip repository ign/rep$Would remove ign/e$Would skip repository j/only$Would remove k/$Would skip repository m/rep$Would remove m/f$Would skip repository p/q/rep$Would remove p/q/r$Would remove p/z$\n\
1^^-d|-X^^Would skip repository ign/rep$Would remove ign/e$\n\
1^^-d|-f|-f^^Would remove j/$Would remove k/$Would remove m/$Would remove p/$Would remove rep/$\n\
1^^-d|-X|-f|-f^^Would remove ign/$\n\
1^^-d|-q^^\n\
1^^-d|-x|-f|-f^^Would remove ign/$Would remove j/$Would remove k/$Would remove m/$Would remove p/$Would remove rep/$\n\
1^^^m&::m^Would skip repository m/rep$Would remove m/f$\n\
1^^^rep&::rep^\n\
1^^^m/rep&::m/rep^\n\
1^^^p&::p^Would skip repository p/q/rep$Would remove p/q/r$Would remove p/z$\n\
1^^^p/q&::p/q^Would skip repository p/q/rep$Would remove p/q/r$\n\
1^^^p/q/r&::p/q/r^Would remove p/q/r/$\n\
1^^^p/z&::p/z|p/q/r&::p/q/r^Would remove p/q/r/$Would remove p/z$\n\
1^^^p/*&::p/*^Would skip repository p/q/rep$Would remove p/q/r$Would remove p/z$\n\
1^^-f|-f^rep&::rep^Would remove rep/$\n\
1^^-f|-f^m/rep&::m/rep|m&::m^Would remove m/f$Would remove m/rep/$\n\
1^^^j&::j^Would skip repository j/only$\n\
1^^-X^ign&::ign^Would skip repository ign/rep$Would remove ign/e$\n\
1^^-f|-f|-X^ign&::ign^Would remove ign/$\n\
1^^^k/bare&::k/bare^Would remove k/bare/$\n\
1^^-q^p&::p^\n\
1^^^k&::k^Would remove k/$\n\
1^^-f^m&::m^Would skip repository m/rep$Would remove m/f$\n\
1^^-d|-f^^Would skip repository j/only$Would remove k/$Would skip repository m/rep$Would remove m/f$Would skip repository p/q/rep$Would remove p/q/r$Would remove p/z$\n\
1^^^j/only&::j/only^\n\
1^^-f|-f^j&::j^Would remove j/$\n\
1^^-d|-x|-eign^^Would skip repository j/only$Would remove k/$Would skip repository m/rep$Would remove m/f$Would skip repository p/q/rep$Would remove p/q/r$Would remove p/z$\n\
1^^-d|-x|-em^^Would skip repository ign/rep$Would remove ign/e$Would skip repository j/only$Would remove k/$Would skip repository p/q/rep$Would remove p/q/r$Would remove p/z$\n\
1^^-d|-x|-f|-f|-em^^Would remove ign/$Would remove j/$Would remove k/$Would remove p/$Would remove rep/$\n\
1^^-d|-x|-f|-f|-erep^^Would remove ign/e/$Would remove j/$Would remove k/$Would remove m/f$Would remove p/q/r/$Would remove p/z$\n\
1^^-d|-x|-eg^^Would skip repository ign/rep$Would remove ign/e$Would skip repository j/only$Would remove k/$Would skip repository m/rep$Would remove m/f$Would remove p/z$\n\
1^^-d|-x|-f|-f|-ez|-e/p/q/^^Would remove ign/$Would remove j/$Would remove k/$Would remove m/$Would remove rep/$\n\
1^^-f|-f^rep&::rep|?&::?^\n\
1^^-f|-f^rep&::rep|r*&::r*^Would remove rep/$\n\
1^^-f|-f^m&::m|?&::?^Would remove m/f$\n\
1^^-f|-f^rep&::rep|rep/x&::rep/x^\n\
1^k/l^-d^k/l/&:(literal)k/l^Would refuse to remove current working directory$Would remove ./x$\n\
1^k/l^-q|-d^..&::k/l/..^Would refuse to remove current working directory$\n\
1^k/l^^.&::k/l/.^Would refuse to remove current working directory$Would remove ./x$\n\
1^k/l^^x&::k/l/x^Would remove x$\n\
1^p/q^-d^p/q/&:(literal)p/q^Would skip repository ./rep$Would remove ./r$\n\
1^p/q^^p/q/&:(literal)p/q^\n\
1^p/q^^.&::p/q/.^Would skip repository ./rep$Would remove ./r$\n\
1^p/q^^..&::p/q/..^Would skip repository ../q/rep$Would remove ../q/r$Would remove ../z$\n\
1^m^-d^m/&:(literal)m^Would skip repository ./rep$Would remove ./f$\n\
1^ign/e^-d^ign/e/&:(literal)ign/e^\n\
1^j^-d^j/&:(literal)j^Would skip repository ./only$\n\
1^j^^..&::j/..^Would skip repository ./only$Would remove ../k/$Would skip repository ../m/rep$Would remove ../m/f$Would skip repository ../p/q/rep$Would remove ../p/q/r$Would remove ../p/z$\n\
2^^^^Would remove \"a\\\"b\"$Would remove \"q\\tt\"$Would remove \"x\\001y\"$Would remove \"\\303\\251\"$\n\
2^^-d^^Would remove \"a\\\"b\"$Would remove \"n\\tl/\"$Would remove \"q\\tt\"$Would remove \"x\\001y\"$Would remove \"\\303\\251\"$\n\
2^^--raw|-d^^Would remove \"a\\\"b\"$Would remove \"n\\tl/\"$Would remove \"q\\tt\"$Would remove \"x\\001y\"$Would remove \xc3\xa9$\n\
2^^--raw^^Would remove \"a\\\"b\"$Would remove \"q\\tt\"$Would remove \"x\\001y\"$Would remove \xc3\xa9$\n\
2^d\\e^-d^..&::d\\e/..^Would remove \"../a\\\"b\"$Would remove \"../n\\tl/\"$Would remove \"../q\\tt\"$Would remove \"../x\\001y\"$Would remove \"../\\303\\251\"$\n\
2^d\\e^^..&::d\\e/..^Would remove \"../a\\\"b\"$Would remove \"../n\\tl/\"$Would remove \"../q\\tt\"$Would remove \"../x\\001y\"$Would remove \"../\\303\\251\"$\n\
3^^^^Would remove d$\n\
3^^-d^^Would remove a/$Would remove d$\n\
3^^-x^^Would remove d$\n\
3^^-X^^\n\
3^^^a/b&::a/b^Would remove a/b/$\n\
3^^^*&::*^Would remove a/$Would remove d$\n\
3^a^-d^a/&:(literal)a^Would refuse to remove current working directory$Would remove ./b$\n\
3^a/b^^a/b/&:(literal)a/b^\n\
4^^^^Would remove .gitignore$Would remove a/2.x$Would remove keep.x$Would remove s.z$\n\
4^^-d^^Would remove .gitignore$Would remove a/2.x$Would remove a/b/.gitignore$Would remove a/b/3.x$Would remove keep.x$Would remove s.z$Would remove x/1$\n\
4^^-x^^Would remove .gitignore$Would remove 1.x$Would remove a/2.x$Would remove keep.x$Would remove s.z$\n\
4^^-X^^Would remove 1.x$Would remove x/2.x$\n\
4^^-d|-x^^Would remove .gitignore$Would remove 1.x$Would remove a/2.x$Would remove a/b/$Would remove k/$Would remove keep.x$Would remove s.z$Would remove x/$\n\
4^^-d|-X^^Would remove 1.x$Would remove a/b/c/$Would remove k/$Would remove x/2.x$\n\
4^^-d|-f|-f^^Would remove .gitignore$Would remove a/2.x$Would remove a/b/.gitignore$Would remove a/b/3.x$Would remove keep.x$Would remove s.z$Would remove x/1$\n\
4^^-d|-X|-f|-f^^Would remove 1.x$Would remove a/b/c/$Would remove k/$Would remove x/2.x$\n\
4^^-d|-q^^\n\
4^^-d|-x|-f|-f^^Would remove .gitignore$Would remove 1.x$Would remove a/2.x$Would remove a/b/$Would remove k/$Would remove keep.x$Would remove s.z$Would remove x/$\n\
4^^^s&::s^\n\
4^^^s/new&::s/new^\n\
4^^^s*&::s*^Would remove s.z$\n\
4^^-f|-f^s&::s^\n\
4^^-d|-e1.x^^Would remove .gitignore$Would remove a/2.x$Would remove a/b/.gitignore$Would remove a/b/3.x$Would remove keep.x$Would remove s.z$Would remove x/1$\n\
4^^-d|-e!1.x^^Would remove .gitignore$Would remove 1.x$Would remove a/2.x$Would remove a/b/.gitignore$Would remove a/b/3.x$Would remove keep.x$Would remove s.z$Would remove x/1$\n\
4^^-d|-ea|-e!a/b^^Would remove .gitignore$Would remove keep.x$Would remove s.z$Would remove x/1$\n\
4^^-d|-e/x/1^^Would remove .gitignore$Would remove a/2.x$Would remove a/b/.gitignore$Would remove a/b/3.x$Would remove keep.x$Would remove s.z$\n\
4^^-d|-X|-ekeep.x^^Would remove 1.x$Would remove a/b/c/$Would remove k/$Would remove keep.x$Would remove x/2.x$\n\
4^^-e*.x^^Would remove .gitignore$Would remove s.z$\n\
4^^-d|-e*^^\n\
4^^-d|-X|-e!*.x^^Would remove a/b/c/$Would remove k/$\n\
4^^-d|-x|-e1.x^^Would remove .gitignore$Would remove a/2.x$Would remove a/b/$Would remove k/$Would remove keep.x$Would remove s.z$Would remove x/$\n\
4^^-d|-x|-e*.x|-e!keep.x^^Would remove .gitignore$Would remove a/b/.gitignore$Would remove a/b/c/$Would remove k/$Would remove keep.x$Would remove s.z$Would remove x/1$\n\
4^^-d|-x|-ek/|-e!k/5.u^^Would remove .gitignore$Would remove 1.x$Would remove a/2.x$Would remove a/b/$Would remove keep.x$Would remove s.z$Would remove x/$\n\
4^^-x|-e*^^\n\
4^^-d|-x|-e/x/1^^Would remove .gitignore$Would remove 1.x$Would remove a/2.x$Would remove a/b/$Would remove k/$Would remove keep.x$Would remove s.z$Would remove x/2.x$\n\
4^^-d|-x|-es^^Would remove .gitignore$Would remove 1.x$Would remove a/2.x$Would remove a/b/$Would remove k/$Would remove keep.x$Would remove s.z$Would remove x/$\n\
4^^^a&::a^Would remove a/2.x$Would remove a/b/.gitignore$Would remove a/b/3.x$\n\
4^^-X^a&::a^Would remove a/b/c/$\n\
4^^^k&::k^\n\
4^^-X^k&::k^Would remove k/$\n\
4^^^x&::x^Would remove x/1$\n\
4^a/b^^a/b/&:(literal)a/b^\n\
4^a/b^-d^a/b/&:(literal)a/b^Would remove .gitignore$Would remove 3.x$\n\
4^a/b^-d|-X^a/b/&:(literal)a/b^Would remove c/$\n\
4^a/b^-d^..&::a/b/..^Would remove ../2.x$Would remove .gitignore$Would remove 3.x$\n\
4^k^-d^k/&:(literal)k^\n\
4^k^-d|-x^k/&:(literal)k^Would refuse to remove current working directory$Would remove ./5.u$Would remove ./l$\n\
4^k^-d|-e6^k/&:(literal)k^\n\
5^^^^\n\
5^^-d^^\n\
5^^-X^^\n\
5^^^p/g&::p/g^\n\
5^^^p/g/f&::p/g/f^\n\
5^^^p/g/s&::p/g/s^\n\
5^^-X^p/g&::p/g^\n\
5^^-X^p/g/o.o&::p/g/o.o^\n\
5^^-x^p/g/f&::p/g/f^\n\
5^^-f|-f^p/g/f&::p/g/f^\n\
5^^-f|-f^p/g/s&::p/g/s^\n\
5^^-f|-f|-X^p/g/o.o&::p/g/o.o^\n\
5^^-f|-f|-d|-X^^Would remove p/o.o$\n\
6^^^w/&::w/|w/x/f&::w/x/f^Would remove w/$\n\
6^^^w*&::w*|w/x/f&::w/x/f^Would remove w/$Would remove wa/$\n\
6^^^w&::w|w/x/f&::w/x/f^Would remove w/g$Would remove w/x/f$\n\
6^^^w/.&::w/.|w/x/f&::w/x/f^Would remove w/$\n\
6^^^w/x/..&::w/x/..|w/x/f&::w/x/f^Would remove w/$\n\
6^^^w/x&::w/x|w/&::w/^Would remove w/$\n\
6^^^w/x/&::w/x/|w/x/f&::w/x/f|w&::w^Would remove w/g$Would remove w/x/$\n\
6^^^w/x/&::w/x/|w/x/f&::w/x/f|w/g&::w/g^Would remove w/g$Would remove w/x/$\n\
6^^^w/&::w/|w/x/&::w/x/|w/x/f&::w/x/f^Would remove w/$\n\
6^^^u&::u|w*&::w*^Would remove u/$Would remove w/$Would remove wa/$\n\
6^^^u&::u|ux*&::ux*^Would remove u/$\n\
6^^^u&::u|u/v/*&::u/v/*^Would remove u/v/$Would remove u/y$\n\
6^^^u&::u|u/v*&::u/v*^Would remove u/v/$Would remove u/y$\n\
6^^^u&::u|u/x*&::u/x*^Would remove u/v/$Would remove u/y$\n\
6^^^u&::u|u*/v/x&::u*/v/x^Would remove u/v/x$Would remove u/y$\n\
6^^^w&::w|*x/&::*x/^Would remove w/g$Would remove w/x/$\n\
6^^^*&::*|w/x/f&::w/x/f^Would remove u/$Would remove w/$Would remove wa/$\n\
6^^^:/&:/:|w/x/f&::w/x/f^Would remove u/$Would remove w/g$Would remove w/x/f$Would remove wa/$\n\
6^^^.&::.|w/x/f&::w/x/f^Would remove u/$Would remove w/g$Would remove w/x/f$Would remove wa/$\n\
6^^^w&::w|w?/&::w?/^Would remove w/g$Would remove w/x/f$\n\
6^^^wa&::wa|w?/&::w?/^Would remove wa/$\n\
6^^^w?/&::w?/|wa/b/h&::wa/b/h^Would remove wa/$\n\
6^^^wa/*&::wa/*|wa/b/h&::wa/b/h^Would remove wa/$\n\
6^^^w*&::w*|wa/b/*&::wa/b/*^Would remove w/$Would remove wa/$\n\
6^^^wa&::wa|w[a]/b/h&::w[a]/b/h^Would remove wa/b/h$Would remove wa/i$\n\
6^^^w&::w|w\\a*&::w\\a*^Would remove w/g$Would remove w/x/f$Would remove wa/$\n\
6^^^:(glob)w*/&:(glob)w*/|w/x/f&::w/x/f^Would remove w/$\n\
6^^^:(glob)w/**&:(glob)w/**|w/x/f&::w/x/f^Would remove w/$\n\
6^^^:(icase)W/&:(icase)W/|w/x/f&::w/x/f^Would remove w/$\n\
6^^^w/&::w/|:(icase)W/X/F&:(icase)W/X/F^Would remove w/$\n\
6^^^w&::w|:(icase)W/X/F&:(icase)W/X/F^Would remove w/g$Would remove w/x/f$\n\
6^^^:(literal)w/&:(literal)w/|w/x/f&::w/x/f^Would remove w/$\n\
6^^^:(top)w/&:(top)w/|w/x/f&::w/x/f^Would remove w/$\n\
6^^^.&::.|:!*x/&:!:*x/^Would remove u/$Would remove w/$Would remove wa/$\n\
6^^^wa&::wa|wa/b&::wa/b|:!wa/i&:!:wa/i^Would remove wa/b/$\n\
6^^^w/&::w/|w/x/f&::w/x/f|:!w/g&:!:w/g^Would remove w/$\n\
6^^-x^w/&::w/|w/x/f&::w/x/f^Would remove w/$\n\
6^^-q^w/&::w/|w/x/f&::w/x/f^\n\
6^u^^../w/&::u/../w/|../w/x/f&::u/../w/x/f^Would remove ../w/$\n\
6^u^^v&::u/v|v/*&::u/v/*^Would remove v/$\n\
6^u^^v&::u/v|../w*&::u/../w*^Would remove v/$Would remove ../w/$Would remove ../wa/$\n\
6^u^^../w&::u/../w|../w[a]&::u/../w[a]^Would remove ../w/g$Would remove ../w/x/f$\n\
6^u^^v*&::u/v*|v/x&::u/v/x^Would remove v/$\n\
7^^^:!b*/&:!:b*/|&:(literal)^Would remove Bc/$Would remove ab/$Would remove bt/n$Would remove q/$Would remove q2/$Would remove r/b4/in/$Would remove t/bn/$Would remove top$Would remove z/$\n\
7^^-d^:!b*/&:!:b*/|&:(literal)^Would remove Bc/$Would remove ab/$Would remove bt/n$Would remove q/$Would remove q2/$Would remove r/b4/in/$Would remove t/bn/$Would remove top$Would remove z/$\n\
7^^-d|-x^:!b*/&:!:b*/|&:(literal)^Would remove Bc/$Would remove ab/$Would remove bt/n$Would remove q/$Would remove q2/$Would remove q3/$Would skip repository r/brep$Would remove r/b4$Would remove t/bn/$Would remove top$Would remove z/$\n\
7^^-x^:!b*/&:!:b*/|&:(literal)^Would remove Bc/$Would remove ab/$Would remove bt/n$Would remove q/$Would remove q2/$Would remove q3/$Would skip repository r/brep$Would remove r/b4$Would remove t/bn/$Would remove top$Would remove z/$\n\
7^^-d|-f|-f^:!b*/&:!:b*/|&:(literal)^Would remove Bc/$Would remove ab/$Would remove bt/n$Would remove q/$Would remove q2/$Would remove r/b4/in/$Would remove r/brep/$Would remove t/bn/$Would remove top$Would remove z/$\n\
7^^^:!ab?&:!:ab?|&:(literal)^Would remove Bc/$Would remove b1/$Would remove be/$Would remove bt/bu/$Would remove bt/n$Would remove q/$Would remove q2/$Would remove r/b4/in/$Would remove t/bn/$Would remove top$Would remove z/$\n\
7^^^:!ab/&:!:ab/|&:(literal)^Would remove Bc/$Would remove b1/$Would remove be/$Would remove bt/bu/$Would remove bt/n$Would remove q/$Would remove q2/$Would remove r/b4/in/$Would remove t/bn/$Would remove top$Would remove z/$\n\
7^^^:!ab*&:!:ab*|&:(literal)^Would remove Bc/$Would remove b1/$Would remove be/$Would remove bt/bu/$Would remove bt/n$Would remove q/$Would remove q2/$Would remove r/b4/in/$Would remove t/bn/$Would remove top$Would remove z/$\n\
7^^^:!a?&:!:a?|&:(literal)^Would remove Bc/$Would remove ab/$Would remove b1/$Would remove be/$Would remove bt/bu/$Would remove bt/n$Would remove q/$Would remove q2/$Would remove r/b4/in/$Would remove t/bn/$Would remove top$Would remove z/$\n\
7^^^:!a?/&:!:a?/|&:(literal)^Would remove Bc/$Would remove b1/$Would remove be/$Would remove bt/bu/$Would remove bt/n$Would remove q/$Would remove q2/$Would remove r/b4/in/$Would remove t/bn/$Would remove top$Would remove z/$\n\
7^^^:!b*/&:!:b*/|.&::.^Would remove Bc/$Would remove ab/$Would remove bt/n$Would remove q/$Would remove q2/$Would remove r/b4/in/$Would remove t/bn/$Would remove top$Would remove z/$\n\
7^^^b1&::b1|:!b*/&:!:b*/^\n\
7^^^b1/s&::b1/s|:!b*/&:!:b*/^\n\
7^^^b1/x&::b1/x|:!b*/&:!:b*/^\n\
7^^^bt&::bt|:!b*/&:!:b*/^Would remove bt/n$\n\
7^^^:!bt*/&:!:bt*/|&:(literal)^Would remove Bc/$Would remove ab/$Would remove b1/$Would remove be/$Would remove bt/n$Would remove q/$Would remove q2/$Would remove r/b4/in/$Would remove t/bn/$Would remove top$Would remove z/$\n\
7^^^:!bt/b*/&:!:bt/b*/|&:(literal)^Would remove Bc/$Would remove ab/$Would remove b1/$Would remove be/$Would remove bt/n$Would remove q/$Would remove q2/$Would remove r/b4/in/$Would remove t/bn/$Would remove top$Would remove z/$\n\
7^^^bt/bu/z&::bt/bu/z|:!*/&:!:*/^\n\
7^^^:!*/&:!:*/|&:(literal)^Would remove bt/n$Would remove top$\n\
7^^^:!?*/&:!:?*/|&:(literal)^Would remove bt/n$Would remove top$\n\
7^^^b*&::b*|:!b*/&:!:b*/^Would remove bt/n$\n\
7^^^*x&::*x|:!b*/&:!:b*/^Would remove Bc/x$Would remove ab/x$Would remove q/b2/x$Would remove q2/b3/x$Would remove t/bn/x$\n\
7^^^*x&::*x|:!*b*/&:!:*b*/^Would remove Bc/x$\n\
7^^^:(exclude,glob)b*/&:(exclude,glob)b*/^Would remove Bc/$Would remove ab/$Would remove bt/bu/$Would remove bt/n$Would remove q/$Would remove q2/$Would remove r/b4/in/$Would remove t/bn/$Would remove top$Would remove z/$\n\
7^^^:(exclude,glob)b*&:(exclude,glob)b*^Would remove Bc/$Would remove ab/$Would remove b1/$Would remove be/$Would remove bt/bu/$Would remove bt/n$Would remove q/$Would remove q2/$Would remove r/b4/in/$Would remove t/bn/$Would remove top$Would remove z/$\n\
7^^-d^:(exclude,glob)b*/&:(exclude,glob)b*/^Would remove Bc/$Would remove ab/$Would remove bt/bu/$Would remove bt/n$Would remove q/$Would remove q2/$Would remove r/b4/in/$Would remove t/bn/$Would remove top$Would remove z/$\n\
7^^^:(exclude,glob)b*/*&:(exclude,glob)b*/*^Would remove Bc/$Would remove ab/$Would remove bt/bu/$Would remove q/$Would remove q2/$Would remove r/b4/in/$Would remove t/bn/$Would remove top$Would remove z/$\n\
7^^^:(exclude,glob)*/&:(exclude,glob)*/^Would remove bt/bu/$Would remove bt/n$Would remove t/bn/$Would remove top$\n\
7^^^:(exclude,glob)b1/*&:(exclude,glob)b1/*^Would remove Bc/$Would remove ab/$Would remove be/$Would remove bt/bu/$Would remove bt/n$Would remove q/$Would remove q2/$Would remove r/b4/in/$Would remove t/bn/$Would remove top$Would remove z/$\n\
7^^^:(exclude,glob)ab?&:(exclude,glob)ab?^Would remove Bc/$Would remove ab/$Would remove b1/$Would remove be/$Would remove bt/bu/$Would remove bt/n$Would remove q/$Would remove q2/$Would remove r/b4/in/$Would remove t/bn/$Would remove top$Would remove z/$\n\
7^^^:(exclude,glob)ab/?&:(exclude,glob)ab/?^Would remove Bc/$Would remove ab/$Would remove b1/$Would remove be/$Would remove bt/bu/$Would remove bt/n$Would remove q/$Would remove q2/$Would remove r/b4/in/$Would remove t/bn/$Would remove top$Would remove z/$\n\
7^^^:(exclude,glob)b1/**/&:(exclude,glob)b1/**/^Would remove Bc/$Would remove ab/$Would remove be/$Would remove bt/bu/$Would remove bt/n$Would remove q/$Would remove q2/$Would remove r/b4/in/$Would remove t/bn/$Would remove top$Would remove z/$\n\
7^^^b1/x&::b1/x|:(exclude,glob)b1/**/&:(exclude,glob)b1/**/^\n\
7^^-X^q3&::q3|:!q3/b*/&:!:q3/b*/^\n\
7^^-d|-X^:!q3/b*/&:!:q3/b*/|&:(literal)^Would remove bi.o/$Would remove r/b4/g.o$\n\
7^^-x^q3&::q3|:!q3/b?&:!:q3/b?^Would remove q3/$\n\
7^^^:(exclude,icase)B*/&:(exclude,icase)B*/^Would remove ab/$Would remove bt/n$Would remove q/$Would remove q2/$Would remove r/b4/in/$Would remove t/bn/$Would remove top$Would remove z/$\n\
7^^^:(exclude,icase,glob)B*/&:(exclude,icase,glob)B*/^Would remove ab/$Would remove bt/bu/$Would remove bt/n$Would remove q/$Would remove q2/$Would remove r/b4/in/$Would remove t/bn/$Would remove top$Would remove z/$\n\
7^^^:(exclude,icase)AB?&:(exclude,icase)AB?^Would remove Bc/$Would remove b1/$Would remove be/$Would remove bt/bu/$Would remove bt/n$Would remove q/$Would remove q2/$Would remove r/b4/in/$Would remove t/bn/$Would remove top$Would remove z/$\n\
7^^^:(exclude,literal)b*/&:(exclude,literal)b*/^Would remove Bc/$Would remove ab/$Would remove b1/$Would remove be/$Would remove bt/bu/$Would remove bt/n$Would remove q/$Would remove q2/$Would remove r/b4/in/$Would remove t/bn/$Would remove top$Would remove z/$\n\
7^^^:!q/b*/&:!:q/b*/|&:(literal)^Would remove Bc/$Would remove ab/$Would remove b1/$Would remove be/$Would remove bt/bu/$Would remove bt/n$Would remove q/$Would remove q2/$Would remove r/b4/in/$Would remove t/bn/$Would remove top$Would remove z/$\n\
7^^-d^:!q/b*/&:!:q/b*/|&:(literal)^Would remove Bc/$Would remove ab/$Would remove b1/$Would remove be/$Would remove bt/bu/$Would remove bt/n$Would remove q/$Would remove q2/$Would remove r/b4/in/$Would remove t/bn/$Would remove top$Would remove z/$\n\
7^^^q&::q|:!q/b*/&:!:q/b*/^Would remove q/$\n\
7^^^q/b2&::q/b2|:!q/b*/&:!:q/b*/^\n\
7^^^q2&::q2|:!q2/b*/&:!:q2/b*/^Would remove q2/$\n\
7^^-d^:!q2/b*/&:!:q2/b*/|&:(literal)^Would remove Bc/$Would remove ab/$Would remove b1/$Would remove be/$Would remove bt/bu/$Would remove bt/n$Would remove q/$Would remove q2/$Would remove r/b4/in/$Would remove t/bn/$Would remove top$Would remove z/$\n\
7^^^:!t/b*/&:!:t/b*/|&:(literal)^Would remove Bc/$Would remove ab/$Would remove b1/$Would remove be/$Would remove bt/bu/$Would remove bt/n$Would remove q/$Would remove q2/$Would remove r/b4/in/$Would remove top$Would remove z/$\n\
7^^^t&::t|:!t/b*/&:!:t/b*/^\n\
7^^-d^:!t/b*/b*/&:!:t/b*/b*/|&:(literal)^Would remove Bc/$Would remove ab/$Would remove b1/$Would remove be/$Would remove bt/bu/$Would remove bt/n$Would remove q/$Would remove q2/$Would remove r/b4/in/$Would remove t/bn/$Would remove top$Would remove z/$\n\
7^^^t/bn/b&::t/bn/b|:!t/bn*/&:!:t/bn*/^\n\
7^^^:(exclude,glob)t/b*/&:(exclude,glob)t/b*/^Would remove Bc/$Would remove ab/$Would remove b1/$Would remove be/$Would remove bt/bu/$Would remove bt/n$Would remove q/$Would remove q2/$Would remove r/b4/in/$Would remove top$Would remove z/$\n\
7^^^t/bn/b&::t/bn/b|:(exclude,glob)t/b*/&:(exclude,glob)t/b*/^\n\
7^^^t/bn/b/*&::t/bn/b/*|:(exclude,glob)t/b*/&:(exclude,glob)t/b*/^\n\
7^^-x^r&::r|:!r/b*/&:!:r/b*/^Would skip repository r/brep$Would remove r/b4$\n\
7^^-X^:(exclude,glob)r/b*/&:(exclude,glob)r/b*/^Would remove bi.o/$Would remove q3/$\n\
7^^-d|-X^:!r/b*/&:!:r/b*/|&:(literal)^Would remove bi.o/$Would remove q3/$\n\
7^^^z&::z|:(exclude,glob)z/b*/&:(exclude,glob)z/b*/^Would remove z/$\n\
7^^^:(exclude,glob)z/b*/&:(exclude,glob)z/b*/^Would remove Bc/$Would remove ab/$Would remove b1/$Would remove be/$Would remove bt/bu/$Would remove bt/n$Would remove q/$Would remove q2/$Would remove r/b4/in/$Would remove t/bn/$Would remove top$Would remove z/$\n\
7^^-f|-f^brep&::brep|:(exclude,glob)b*/&:(exclude,glob)b*/^\n\
7^^-f|-f^b*&::b*|:(exclude,glob)br*/&:(exclude,glob)br*/^Would remove b1/$Would remove be/$Would remove bt/bu/$Would remove bt/n$\n\
7^^^be&::be|:(exclude,glob)b*/&:(exclude,glob)b*/^\n\
7^^^:!a?/.&:!:a?/.|&:(literal)^Would remove Bc/$Would remove b1/$Would remove be/$Would remove bt/bu/$Would remove bt/n$Would remove q/$Would remove q2/$Would remove r/b4/in/$Would remove t/bn/$Would remove top$Would remove z/$\n\
7^^^:(top,exclude)b*/&:(top,exclude)b*/^Would remove Bc/$Would remove ab/$Would remove bt/n$Would remove q/$Would remove q2/$Would remove r/b4/in/$Would remove t/bn/$Would remove top$Would remove z/$\n\
7^^^:!b*/&:!:b*/|:!a*/&:!:a*/|&:(literal)^Would remove Bc/$Would remove bt/n$Would remove q/$Would remove q2/$Would remove r/b4/in/$Would remove t/bn/$Would remove top$Would remove z/$\n\
7^^^:!b[1]*/&:!:b[1]*/|&:(literal)^Would remove Bc/$Would remove ab/$Would remove be/$Would remove bt/bu/$Would remove bt/n$Would remove q/$Would remove q2/$Would remove r/b4/in/$Would remove t/bn/$Would remove top$Would remove z/$\n\
7^^^:!b\\*/&:!:b\\*/|&:(literal)^Would remove Bc/$Would remove ab/$Would remove b1/$Would remove be/$Would remove bt/bu/$Would remove bt/n$Would remove q/$Would remove q2/$Would remove r/b4/in/$Would remove t/bn/$Would remove top$Would remove z/$\n\
7^^^:!b1?&:!:b1?|&:(literal)^Would remove Bc/$Would remove ab/$Would remove be/$Would remove bt/bu/$Would remove bt/n$Would remove q/$Would remove q2/$Would remove r/b4/in/$Would remove t/bn/$Would remove top$Would remove z/$\n\
7^^^:!b1/?&:!:b1/?|&:(literal)^Would remove Bc/$Would remove ab/$Would remove b1/$Would remove be/$Would remove bt/bu/$Would remove bt/n$Would remove q/$Would remove q2/$Would remove r/b4/in/$Would remove t/bn/$Would remove top$Would remove z/$\n\
7^^^:!b1/s?&:!:b1/s?|&:(literal)^Would remove Bc/$Would remove ab/$Would remove b1/$Would remove be/$Would remove bt/bu/$Would remove bt/n$Would remove q/$Would remove q2/$Would remove r/b4/in/$Would remove t/bn/$Would remove top$Would remove z/$\n\
7^^^:!b1/s*/&:!:b1/s*/|&:(literal)^Would remove Bc/$Would remove ab/$Would remove b1/$Would remove be/$Would remove bt/bu/$Would remove bt/n$Would remove q/$Would remove q2/$Would remove r/b4/in/$Would remove t/bn/$Would remove top$Would remove z/$\n\
7^^^b1/s&::b1/s|:!b1/s?&:!:b1/s?^\n\
7^^^b1&::b1|:!b1/s?&:!:b1/s?^Would remove b1/$\n\
7^^^:(exclude,glob)b1/s*/&:(exclude,glob)b1/s*/^Would remove Bc/$Would remove ab/$Would remove b1/$Would remove be/$Would remove bt/bu/$Would remove bt/n$Would remove q/$Would remove q2/$Would remove r/b4/in/$Would remove t/bn/$Would remove top$Would remove z/$\n\
7^^^b1&::b1|:(exclude,glob)b1/s*/&:(exclude,glob)b1/s*/^Would remove b1/$\n\
7^^^b1/*&::b1/*|:(exclude,glob)b1/s*/&:(exclude,glob)b1/s*/^Would remove b1/$\n\
7^^^b1/*/*&::b1/*/*|:(exclude,glob)b1/s*/&:(exclude,glob)b1/s*/^\n\
7^^-q^:!b*/&:!:b*/|&:(literal)^\n\
7^^-d^:!Bc?&:!:Bc?|:!top&:!:top|&:(literal)^Would remove ab/$Would remove b1/$Would remove be/$Would remove bt/bu/$Would remove bt/n$Would remove q/$Would remove q2/$Would remove r/b4/in/$Would remove t/bn/$Would remove z/$\n\
7^b1^^:!../b*/&:!:b1/../b*/|&:(literal)b1^\n\
7^b1^^s&::b1/s|:!s*/&:!:b1/s*/^\n\
7^b1^^..&::b1/..|:!../b*/&:!:b1/../b*/^Would remove ../Bc/$Would remove ../ab/$Would remove ../bt/n$Would remove ../q/$Would remove ../q2/$Would remove ../r/b4/in/$Would remove ../t/bn/$Would remove ../top$Would remove ../z/$\n\
7^t/bn^^b&::t/bn/b|:!b?&:!:t/bn/b?^\n\
7^t/bn^^:/&:/:|:(exclude,top)t/b*/&:(exclude,top)t/b*/^Would remove ../../Bc/$Would remove ../../ab/$Would remove ../../b1/$Would remove ../../be/$Would remove ../../bt/bu/$Would remove ../../bt/n$Would remove ../../q/$Would remove ../../q2/$Would remove ../../r/b4/in/$Would remove ../../top$Would remove ../../z/$\n\
";
