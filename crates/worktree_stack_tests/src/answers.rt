//! What git answers of paths in work trees with several rules files; made by `scripts/ask-git-nested` with git version 2.39.5.
//!
//! A row has the line that decides, or 0; its sign; the file that it stands in; `d` or `f` for a
//! directory or a file; the path; and the rules files, each as its path, `=` and its rules with `|`
//! in the place of each LF.

/// Which rule decides of a path.
pub const NESTED: &[u8] = b"\
1;+;.gitignore;f;build/sub/x;.gitignore=build/;build/.gitignore=!sub/\n\
1;+;.gitignore;d;build/sub;.gitignore=build/;build/.gitignore=!sub/\n\
1;+;.gitignore;f;build/y;.gitignore=build/;build/.gitignore=!sub/\n\
1;+;.gitignore;d;build;.gitignore=build/;build/.gitignore=!sub/\n\
1;+;.gitignore;f;out/keep;.gitignore=out/|!out/keep\n\
1;+;.gitignore;d;out;.gitignore=out/|!out/keep\n\
0;+;;f;keep;.gitignore=out/|!out/keep\n\
1;+;.gitignore;f;x/build/f;.gitignore=build;x/build/.gitignore=!f\n\
1;+;.gitignore;d;x/build;.gitignore=build;x/build/.gitignore=!f\n\
0;+;;f;x/f;.gitignore=build;x/build/.gitignore=!f\n\
1;+;.gitignore;f;a/b/c/d/e;.gitignore=a/b/\n\
1;+;.gitignore;d;a/b/c;.gitignore=a/b/\n\
0;+;;f;a/c;.gitignore=a/b/\n\
1;+;.gitignore;f;a/b/c;.gitignore=a/;a/.gitignore=b/|!b/c\n\
1;+;.gitignore;d;a/b;.gitignore=a/;a/.gitignore=b/|!b/c\n\
1;+;.gitignore;f;a/x;.gitignore=a/;a/.gitignore=b/|!b/c\n\
1;+;a/.gitignore;f;a/x/x/x;.gitignore=x;a/.gitignore=x/;a/x/.gitignore=!x\n\
1;+;a/.gitignore;f;a/x/y;.gitignore=x;a/.gitignore=x/;a/x/.gitignore=!x\n\
1;+;.gitignore;f;x/y;.gitignore=x;a/.gitignore=x/;a/x/.gitignore=!x\n\
3;-;.gitignore;f;a.c;.gitignore=*|!*/|!*.c\n\
1;+;.gitignore;f;a.o;.gitignore=*|!*/|!*.c\n\
2;-;.gitignore;d;d;.gitignore=*|!*/|!*.c\n\
3;-;.gitignore;f;d/a.c;.gitignore=*|!*/|!*.c\n\
1;+;.gitignore;f;d/x.o;.gitignore=*|!*/|!*.c\n\
3;-;.gitignore;f;d/e/a.c;.gitignore=*|!*/|!*.c\n\
0;+;;f;foo/bar/x;.gitignore=/*|!/foo|/foo/*|!/foo/bar\n\
4;-;.gitignore;d;foo/bar;.gitignore=/*|!/foo|/foo/*|!/foo/bar\n\
3;+;.gitignore;f;foo/baz;.gitignore=/*|!/foo|/foo/*|!/foo/bar\n\
2;-;.gitignore;d;foo;.gitignore=/*|!/foo|/foo/*|!/foo/bar\n\
1;+;.gitignore;f;x/y;.gitignore=/*|!/foo|/foo/*|!/foo/bar\n\
1;+;.gitignore;f;x;.gitignore=/*|!/foo|/foo/*|!/foo/bar\n\
0;+;;f;x.d/f;.gitignore=*.d/|!x.d/\n\
2;-;.gitignore;d;x.d;.gitignore=*.d/|!x.d/\n\
1;+;.gitignore;f;y.d/f;.gitignore=*.d/|!x.d/\n\
0;+;;f;y.d;.gitignore=*.d/|!x.d/\n\
1;+;.gitignore;f;a/b;.gitignore=a/b|!a/\n\
0;+;;f;a/c;.gitignore=a/b|!a/\n\
2;-;.gitignore;d;a;.gitignore=a/b|!a/\n\
1;-;.gitignore;f;x;.gitignore=!x\n\
0;+;;f;x/y;.gitignore=!x\n\
0;+;;f;y;.gitignore=!x\n\
1;-;d/.gitignore;f;d/k.o;.gitignore=*.o;d/.gitignore=!k.o\n\
1;+;.gitignore;f;d/x.o;.gitignore=*.o;d/.gitignore=!k.o\n\
1;-;d/.gitignore;f;d/e/k.o;.gitignore=*.o;d/.gitignore=!k.o\n\
1;+;.gitignore;f;k.o;.gitignore=*.o;d/.gitignore=!k.o\n\
2;-;a/.gitignore;f;a/keep;a/.gitignore=*|!keep\n\
1;+;a/.gitignore;f;a/x;a/.gitignore=*|!keep\n\
1;+;a/.gitignore;f;a/b/keep;a/.gitignore=*|!keep\n\
1;+;a/.gitignore;d;a/b;a/.gitignore=*|!keep\n\
0;+;;f;keep;a/.gitignore=*|!keep\n\
1;+;d1/.gitignore;f;d1/skip/x;d1/.gitignore=skip/;d1/d2/.gitignore=!skip/\n\
0;+;;f;d1/d2/skip/x;d1/.gitignore=skip/;d1/d2/.gitignore=!skip/\n\
1;-;d1/d2/.gitignore;d;d1/d2/skip;d1/.gitignore=skip/;d1/d2/.gitignore=!skip/\n\
0;+;;f;d1/d2/d3/skip/x;d1/.gitignore=skip/;d1/d2/.gitignore=!skip/\n\
1;+;.gitignore;f;doc/readme;.gitignore=doc;x/.gitignore=!doc/\n\
0;+;;f;x/doc/readme;.gitignore=doc;x/.gitignore=!doc/\n\
1;+;.gitignore;f;x/doc;.gitignore=doc;x/.gitignore=!doc/\n\
1;-;x/.gitignore;d;x/y/doc;.gitignore=doc;x/.gitignore=!doc/\n\
1;+;.gitignore;f;a.log;.gitignore=*.log;logs/.gitignore=!*.log;logs/old/.gitignore=*.log|!last.log\n\
1;-;logs/.gitignore;f;logs/a.log;.gitignore=*.log;logs/.gitignore=!*.log;logs/old/.gitignore=*.log|!last.log\n\
1;+;logs/old/.gitignore;f;logs/old/a.log;.gitignore=*.log;logs/.gitignore=!*.log;logs/old/.gitignore=*.log|!last.log\n\
2;-;logs/old/.gitignore;f;logs/old/last.log;.gitignore=*.log;logs/.gitignore=!*.log;logs/old/.gitignore=*.log|!last.log\n\
2;-;logs/old/.gitignore;f;logs/old/x/last.log;.gitignore=*.log;logs/.gitignore=!*.log;logs/old/.gitignore=*.log|!last.log\n\
";
