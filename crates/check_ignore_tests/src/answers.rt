//! What git answers of paths; made by `scripts/ask-git-check-ignore` with git version 2.39.5.
//!
//! A row has the number of the tree, the directory, the options, parted by `|`, how many paths
//! there are, the paths, parted by `|`, or with `--stdin` what is given on the standard input, the
//! status, what git prints to its output, with `$` in the place of each LF, and what stands behind
//! `fatal: ` in what it prints besides. Where git refuses a line of the input, what it prints of
//! the lines before is left out. A tree has the rules outside the work tree, parted by `;`: `R` is
//! the repository's, `U` the user's, each with its name and its text, and `Rx` has its bytes in
//! hexadecimal digits; the paths of the index: `m` is that of a submodule; and its steps: `d` is a
//! directory, `f` a file with its text, `x` one with its bytes in hexadecimal digits, and `l` a
//! link.

/// The trees, one a line.
pub const TREES: &[u8] = b"\
^f .gitignore;f a/tracked;f tracked.o^f /w/r/.gitignore=*.o$/top$build/$!keep.o$a/b$/x/y$$# c$\\#h$\\!bang$sp\\ $tail   $**/deep$doc/**$!/neg$w*$/a/c/$!/a/c/d/$sub/*/z$q?r$[ab]z$;f /w/r/1.o=x$;f /w/r/keep.o=x$;f /w/r/tracked.o=x$;f /w/r/a/b=x$;f /w/r/a/tracked=x$;f /w/r/a/c/d/f=x$;f /w/r/build/in/f=x$;f /w/r/doc/e/f=x$;f /w/r/sub/m/z=x$;d /w/r/top;f /w/r/x/build=x$;f /w/r/x/y=x$\n\
R .git/info/exclude=k/$!*.u$/slash/led$slash/in$/only.r$;U /w/h/.config/git/ignore=*.u$*.v$/user/one$!late$^f a/.gitignore^f /w/r/.gitignore=*.x$!keep.x$late$;f /w/r/1.x=x$;f /w/r/a/.gitignore=!*.x$/own$!late$;f /w/r/a/b/.gitignore=*.x$!c/$;d /w/r/a/b/c;f /w/r/k/.gitignore=*$;f /w/r/k/l/f=x$;f /w/r/x/.gitignore=*$!*.t$;f /w/r/x/1.t=x$\n\
^f .gitignore^l /w/r/l=real;l /w/r/ld=real/d;f /w/r/.gitignore=l$*.o$d/$file/$real/skip$;l /w/r/dl=nowhere;f /w/r/file=x$;d /w/r/real/d\n\
^f .gitignore;f .gitmodules;m s^f /w/r/.gitignore=*.o$s$/t$;f /w/r/.gitmodules=[submodule \"s\"]$\tpath = s$\turl = ../m$;d /w/r/a;f /w/r/s/.git=gitdir: ../.git/modules/s$\n\
^f .gitignore^x /w/r/.gitignore=2a2e710ac3a92a0a746109620a71222a0a;f /w/r/d\\e/.gitignore=/in*$;f /w/r/\xc3\xa4/.gitignore=p*$\n\
^^f /w/r/a/f=x$;d /w/r/a/b\n\
^^f /w/r/.gitignore=*$;d /w/r/a\n\
R .git/info/exclude=*$!b$!*/$;U /w/h/.config/git/ignore=?*$!**/$***  $?**/$!?*x$^f t^f /w/r/t=x$;d /w/r/a\n\
R .git/info/exclude=!a$;U /w/h/.config/git/ignore=!**$$**/  $?*y$!****/$^^d /w/r/a;d /w/r/c/d\n\
R .git/info/exclude=?*$!?**/$^^d /w/r/a/c\n\
R .git/info/exclude=**/**$^^d /w/r/a\n\
Rx .git/info/exclude=efbbbf2a0a^^d /w/r/a\n\
R .git/info/exclude=!*$b$/*$!/c*$^^d /w/r/a\n\
^^x /w/r/.gitignore=efbbbf2f780d0a790d0a21612f7a0a2f77;x /w/r/a/.gitignore=efbbbf2f702f710a\n\
";

/// What git answers.
pub const ROWS: &[u8] = b"\
0^^-v|-n^13^1.o|keep.o|a/keep.o|nowhere.o|top|a/top|build|build/in/f|x/build|a/b|x/a/b|x/y|z/x/y^0^.gitignore:1:*.o\t1.o$.gitignore:4:!keep.o\tkeep.o$.gitignore:4:!keep.o\ta/keep.o$.gitignore:1:*.o\tnowhere.o$.gitignore:2:/top\ttop$::\ta/top$.gitignore:3:build/\tbuild$.gitignore:3:build/\tbuild/in/f$::\tx/build$.gitignore:5:a/b\ta/b$::\tx/a/b$.gitignore:6:/x/y\tx/y$::\tz/x/y$^\n\
0^^^13^1.o|keep.o|a/keep.o|nowhere.o|top|a/top|build|build/in/f|x/build|a/b|x/a/b|x/y|z/x/y^0^1.o$nowhere.o$top$build$build/in/f$a/b$x/y$^\n\
0^^-v|-n^16^#h|!bang|sp |sp|tail|a/deep|a/deep/er|doc|doc/e|doc/e/f|neg|weird|a/c|a/c/d|a/c/d/f|a/c/d/g^0^.gitignore:9:\\#h\t#h$.gitignore:10:\\!bang\t!bang$.gitignore:11:sp\\ \tsp $::\tsp$.gitignore:12:tail\ttail$.gitignore:13:**/deep\ta/deep$.gitignore:13:**/deep\ta/deep/er$::\tdoc$.gitignore:14:doc/**\tdoc/e$.gitignore:14:doc/**\tdoc/e/f$.gitignore:15:!/neg\tneg$.gitignore:16:w*\tweird$.gitignore:17:/a/c/\ta/c$.gitignore:17:/a/c/\ta/c/d$.gitignore:17:/a/c/\ta/c/d/f$.gitignore:17:/a/c/\ta/c/d/g$^\n\
0^^^16^#h|!bang|sp |sp|tail|a/deep|a/deep/er|doc|doc/e|doc/e/f|neg|weird|a/c|a/c/d|a/c/d/f|a/c/d/g^0^#h$!bang$sp $tail$a/deep$a/deep/er$doc/e$doc/e/f$weird$a/c$a/c/d$a/c/d/f$a/c/d/g$^\n\
0^^-v|-n^10^sub/m/z|sub/z|qqr|q/r|az|bz|cz|tracked.o|a/tracked|a^0^.gitignore:19:sub/*/z\tsub/m/z$::\tsub/z$.gitignore:20:q?r\tqqr$::\tq/r$.gitignore:21:[ab]z\taz$.gitignore:21:[ab]z\tbz$::\tcz$::\ttracked.o$::\ta/tracked$::\ta$^\n\
0^^^10^sub/m/z|sub/z|qqr|q/r|az|bz|cz|tracked.o|a/tracked|a^0^sub/m/z$qqr$az$bz$^\n\
0^^-q^1^1.o^0^^\n\
0^^-q^1^keep.o^1^^\n\
0^^-q^1^nothing^1^^\n\
0^^--quiet^1^tracked.o^1^^\n\
0^^-v^1^keep.o^0^.gitignore:4:!keep.o\tkeep.o$^\n\
0^^-v^1^nothing^1^^\n\
0^^-v|-n^1^nothing^1^::\tnothing$^\n\
0^^--verbose|--non-matching^2^1.o|nothing^0^.gitignore:1:*.o\t1.o$::\tnothing$^\n\
0^^^1^nothing^1^^\n\
0^^^2^1.o|1.o^0^1.o$1.o$^\n\
0^^^1^./1.o^0^./1.o$^\n\
0^^^1^a/../1.o^0^a/../1.o$^\n\
0^^^1^a//./d/x.o^0^a//./d/x.o$^\n\
0^^^1^nothing/../1.o^0^nothing/../1.o$^\n\
0^^^1^build/^0^build/$^\n\
0^^^1^build/in/^0^build/in/$^\n\
0^^-v^3^build/|build/in/|build/in^0^.gitignore:3:build/\tbuild/$.gitignore:3:build/\tbuild/in/$.gitignore:3:build/\tbuild/in$^\n\
0^^-v^1^top/^0^.gitignore:2:/top\ttop/$^\n\
0^^-v^1^x/build^1^^\n\
0^^-v^1^doc/e/^0^.gitignore:14:doc/**\tdoc/e/$^\n\
0^^^1^a/^1^^\n\
0^^^1^.^1^^\n\
0^^-v^1^.^1^^\n\
0^^^1^a/c/^0^a/c/$^\n\
0^^-v^1^a/c/d/^0^.gitignore:17:/a/c/\ta/c/d/$^\n\
0^^^1^*.o^1^^\n\
0^^^1^*.o^1^^\n\
0^^^1^k*^1^^\n\
0^^^1^a/*^1^^\n\
0^^^1^[ab]z^1^^\n\
0^^^1^[ab]z/q^1^^\n\
0^^^1^zz*^1^^\n\
0^^^1^top*^1^^\n\
0^^-v^1^a?^1^^\n\
0^^--stdin^0^1.o$nothing$a/b$^0^1.o$a/b$^\n\
0^^--stdin^0^1.o^0^1.o$^\n\
0^^--stdin^0^^1^^\n\
0^^--stdin^0^1.o\r$x\x00y^1^^\n\
0^^--stdin^0^\"1.o\"$\"a\\057b\" c$\"sp\\040\"$^0^1.o$a/b$sp $^\n\
0^^--stdin^0^1.o\x00a/b\x00\"top\"\x00^0^1.o$^\n\
0^^--stdin^0^\"1.o$^128^^line is badly quoted\n\
0^^--stdin^0^\"\\400\"$^128^^line is badly quoted\n\
0^^--stdin^0^\"\\x\"^128^^line is badly quoted\n\
0^^--stdin^0^\"\\1\"^128^^line is badly quoted\n\
0^^--stdin^0^1.o$$x^128^^empty string is not a valid pathspec. please use . instead if you meant to match all paths\n\
0^^--stdin^0^../1.o^128^^../1.o: '../1.o' is outside repository at '/w/r'\n\
0^^--stdin^0^\"top\\000x\"$^0^top$^\n\
0^^--stdin^0^\"to\x00p\"^128^^line is badly quoted\n\
0^^--stdin^0^keep.o$tracked.o$^1^^\n\
0^^-v|-n|--stdin^0^1.o$nothing$a/b$^0^.gitignore:1:*.o\t1.o$::\tnothing$.gitignore:5:a/b\ta/b$^\n\
0^^-v|-n|--stdin^0^1.o^0^.gitignore:1:*.o\t1.o$^\n\
0^^-v|-n|--stdin^0^^1^^\n\
0^^-v|-n|--stdin^0^1.o\r$x\x00y^1^::\t\"1.o\\r\"$::\tx$^\n\
0^^-v|-n|--stdin^0^\"1.o\"$\"a\\057b\" c$\"sp\\040\"$^0^.gitignore:1:*.o\t1.o$.gitignore:5:a/b\ta/b$.gitignore:11:sp\\ \tsp $^\n\
0^^-v|-n|--stdin^0^1.o\x00a/b\x00\"top\"\x00^0^.gitignore:1:*.o\t1.o$^\n\
0^^-v|-n|--stdin^0^\"1.o$^128^^line is badly quoted\n\
0^^-v|-n|--stdin^0^\"\\400\"$^128^^line is badly quoted\n\
0^^-v|-n|--stdin^0^\"\\x\"^128^^line is badly quoted\n\
0^^-v|-n|--stdin^0^\"\\1\"^128^^line is badly quoted\n\
0^^-v|-n|--stdin^0^1.o$$x^128^^empty string is not a valid pathspec. please use . instead if you meant to match all paths\n\
0^^-v|-n|--stdin^0^../1.o^128^^../1.o: '../1.o' is outside repository at '/w/r'\n\
0^^-v|-n|--stdin^0^\"top\\000x\"$^0^.gitignore:2:/top\ttop$^\n\
0^^-v|-n|--stdin^0^\"to\x00p\"^128^^line is badly quoted\n\
0^^-v|-n|--stdin^0^keep.o$tracked.o$^0^.gitignore:4:!keep.o\tkeep.o$::\ttracked.o$^\n\
0^^-z|--stdin^0^1.o$nothing$a/b$^1^^\n\
0^^-z|--stdin^0^1.o^0^1.o\x00^\n\
0^^-z|--stdin^0^^1^^\n\
0^^-z|--stdin^0^1.o\r$x\x00y^1^^\n\
0^^-z|--stdin^0^\"1.o\"$\"a\\057b\" c$\"sp\\040\"$^1^^\n\
0^^-z|--stdin^0^1.o\x00a/b\x00\"top\"\x00^0^1.o\x00a/b\x00^\n\
0^^-z|--stdin^0^\"1.o$^1^^\n\
0^^-z|--stdin^0^\"\\400\"$^1^^\n\
0^^-z|--stdin^0^\"\\x\"^1^^\n\
0^^-z|--stdin^0^\"\\1\"^1^^\n\
0^^-z|--stdin^0^1.o$$x^1^^\n\
0^^-z|--stdin^0^../1.o^128^^../1.o: '../1.o' is outside repository at '/w/r'\n\
0^^-z|--stdin^0^\"top\\000x\"$^1^^\n\
0^^-z|--stdin^0^\"to\x00p\"^1^^\n\
0^^-z|--stdin^0^keep.o$tracked.o$^1^^\n\
0^^-z|-v|-n|--stdin^0^1.o$nothing$a/b$^1^\x00\x00\x001.o$nothing$a/b$\x00^\n\
0^^-z|-v|-n|--stdin^0^1.o^0^.gitignore\x001\x00*.o\x001.o\x00^\n\
0^^-z|-v|-n|--stdin^0^^1^^\n\
0^^-z|-v|-n|--stdin^0^1.o\r$x\x00y^1^\x00\x00\x001.o\r$x\x00\x00\x00\x00y\x00^\n\
0^^-z|-v|-n|--stdin^0^\"1.o\"$\"a\\057b\" c$\"sp\\040\"$^1^\x00\x00\x00\"1.o\"$\"a\\057b\" c$\"sp\\040\"$\x00^\n\
0^^-z|-v|-n|--stdin^0^1.o\x00a/b\x00\"top\"\x00^0^.gitignore\x001\x00*.o\x001.o\x00.gitignore\x005\x00a/b\x00a/b\x00\x00\x00\x00\"top\"\x00^\n\
0^^-z|-v|-n|--stdin^0^\"1.o$^1^\x00\x00\x00\"1.o$\x00^\n\
0^^-z|-v|-n|--stdin^0^\"\\400\"$^1^\x00\x00\x00\"\\400\"$\x00^\n\
0^^-z|-v|-n|--stdin^0^\"\\x\"^1^\x00\x00\x00\"\\x\"\x00^\n\
0^^-z|-v|-n|--stdin^0^\"\\1\"^1^\x00\x00\x00\"\\1\"\x00^\n\
0^^-z|-v|-n|--stdin^0^1.o$$x^1^\x00\x00\x001.o$$x\x00^\n\
0^^-z|-v|-n|--stdin^0^../1.o^128^^../1.o: '../1.o' is outside repository at '/w/r'\n\
0^^-z|-v|-n|--stdin^0^\"top\\000x\"$^1^\x00\x00\x00\"top\\000x\"$\x00^\n\
0^^-z|-v|-n|--stdin^0^\"to\x00p\"^1^\x00\x00\x00\"to\x00\x00\x00\x00p\"\x00^\n\
0^^-z|-v|-n|--stdin^0^keep.o$tracked.o$^1^\x00\x00\x00keep.o$tracked.o$\x00^\n\
0^^-q|--stdin^0^1.o$nothing$a/b$^0^^\n\
0^^-q|--stdin^0^1.o^0^^\n\
0^^-q|--stdin^0^^1^^\n\
0^^-q|--stdin^0^1.o\r$x\x00y^1^^\n\
0^^-q|--stdin^0^\"1.o\"$\"a\\057b\" c$\"sp\\040\"$^0^^\n\
0^^-q|--stdin^0^1.o\x00a/b\x00\"top\"\x00^0^^\n\
0^^-q|--stdin^0^\"1.o$^128^^line is badly quoted\n\
0^^-q|--stdin^0^\"\\400\"$^128^^line is badly quoted\n\
0^^-q|--stdin^0^\"\\x\"^128^^line is badly quoted\n\
0^^-q|--stdin^0^\"\\1\"^128^^line is badly quoted\n\
0^^-q|--stdin^0^1.o$$x^128^^empty string is not a valid pathspec. please use . instead if you meant to match all paths\n\
0^^-q|--stdin^0^../1.o^128^^../1.o: '../1.o' is outside repository at '/w/r'\n\
0^^-q|--stdin^0^\"top\\000x\"$^0^^\n\
0^^-q|--stdin^0^\"to\x00p\"^128^^line is badly quoted\n\
0^^-q|--stdin^0^keep.o$tracked.o$^1^^\n\
0^a^-v|--stdin^0^b$../1.o$\"c\\\"d\\n\"$^0^.gitignore:5:a/b\tb$.gitignore:1:*.o\t../1.o$^\n\
0^a^-v|--stdin^0^c/$x.o^0^.gitignore:17:/a/c/\tc/$.gitignore:1:*.o\tx.o$^\n\
0^^^0^^128^^no path specified\n\
0^^-q^0^^128^^no path specified\n\
0^^-v^0^^128^^no path specified\n\
0^^-n^1^1.o^128^^--non-matching is only valid with --verbose\n\
0^^-q|-v^1^1.o^128^^cannot have both --quiet and --verbose\n\
0^^-q^2^1.o|top^128^^--quiet is only valid with a single pathname\n\
0^^-q|-n^1^1.o^128^^--non-matching is only valid with --verbose\n\
0^^-q|-v^2^1.o|top^128^^--quiet is only valid with a single pathname\n\
0^^-z^1^1.o^128^^-z only makes sense with --stdin\n\
0^^--stdin^1^1.o^128^^cannot specify pathnames with --stdin\n\
0^^-z^0^^128^^-z only makes sense with --stdin\n\
0^^-q|-z^1^top^128^^-z only makes sense with --stdin\n\
0^^^1^../1.o^128^^../1.o: '../1.o' is outside repository at '/w/r'\n\
0^^^2^1.o|../1.o^128^^../1.o: '../1.o' is outside repository at '/w/r'\n\
0^^^1^a/../../1.o^128^^a/../../1.o: 'a/../../1.o' is outside repository at '/w/r'\n\
0^^^2^|1.o^128^^empty string is not a valid pathspec. please use . instead if you meant to match all paths\n\
0^^^2^1.o|^128^^empty string is not a valid pathspec. please use . instead if you meant to match all paths\n\
0^^^2^../1.o|^128^^empty string is not a valid pathspec. please use . instead if you meant to match all paths\n\
0^^-n|-v^1^../../x^128^^../../x: '../../x' is outside repository at '/w/r'\n\
0^^--no-index^1^1.o^0^1.o$^\n\
0^^--no-index^1^tracked.o^0^tracked.o$^\n\
0^^--no-index|-v^3^a/tracked|.gitignore|tracked.o^0^.gitignore:1:*.o\ttracked.o$^\n\
0^^--stdin|-q|-v^0^^128^^cannot have both --quiet and --verbose\n\
0^^--stdin|-n^0^^128^^--non-matching is only valid with --verbose\n\
0^^--stdin|-q^2^1.o|top^128^^cannot specify pathnames with --stdin\n\
0^a^^1^b^0^b$^\n\
0^a^-v^5^b|../1.o|../top|c/d/f|tracked^0^.gitignore:5:a/b\tb$.gitignore:1:*.o\t../1.o$.gitignore:2:/top\t../top$.gitignore:17:/a/c/\tc/d/f$^\n\
0^a^^1^../../1.o^128^^../../1.o: '../../1.o' is outside repository at '/w/r'\n\
0^a^^1^..^1^^\n\
0^a^-v^1^c^0^.gitignore:17:/a/c/\tc$^\n\
0^a^^1^x.o^0^x.o$^\n\
0^a^^1^../x/y^0^../x/y$^\n\
0^a^-q^1^tracked^1^^\n\
0^a^--no-index^1^tracked^1^^\n\
0^a^-v^1^c/^0^.gitignore:17:/a/c/\tc/$^\n\
0^a^^1^/w/r/1.o^0^/w/r/1.o$^\n\
0^a^-v^1^../build/in/f^0^.gitignore:3:build/\t../build/in/f$^\n\
0^a/c/d^-v^1^f^0^.gitignore:17:/a/c/\tf$^\n\
0^a/c/d^-v^2^../../b|../..//../1.o^0^.gitignore:5:a/b\t../../b$.gitignore:1:*.o\t../..//../1.o$^\n\
0^a/c/d^^1^../../../../x^128^^../../../../x: '../../../../x' is outside repository at '/w/r'\n\
0^build/in^-v^1^f^0^.gitignore:3:build/\tf$^\n\
0^build/in^^2^f|nowhere^0^f$nowhere$^\n\
0^build/in^-v|-n^1^../../a/b^0^.gitignore:5:a/b\t../../a/b$^\n\
1^^-v|-n^18^1.x|keep.x|a/1.x|a/keep.x|a/b/1.x|a/b/c/1.x|a/b/keep.x|own|a/own|a/b/own|late|a/late|a/b/late|k|k/l|k/l/f|a/k|k/.gitignore^0^.gitignore:1:*.x\t1.x$.gitignore:2:!keep.x\tkeep.x$a/.gitignore:1:!*.x\ta/1.x$a/.gitignore:1:!*.x\ta/keep.x$a/b/.gitignore:1:*.x\ta/b/1.x$a/b/.gitignore:1:*.x\ta/b/c/1.x$a/b/.gitignore:1:*.x\ta/b/keep.x$::\town$a/.gitignore:2:/own\ta/own$::\ta/b/own$.gitignore:3:late\tlate$a/.gitignore:3:!late\ta/late$a/.gitignore:3:!late\ta/b/late$.git/info/exclude:1:k/\tk$.git/info/exclude:1:k/\tk/l$.git/info/exclude:1:k/\tk/l/f$::\ta/k$.git/info/exclude:1:k/\tk/.gitignore$^\n\
1^^^18^1.x|keep.x|a/1.x|a/keep.x|a/b/1.x|a/b/c/1.x|a/b/keep.x|own|a/own|a/b/own|late|a/late|a/b/late|k|k/l|k/l/f|a/k|k/.gitignore^0^1.x$a/b/1.x$a/b/c/1.x$a/b/keep.x$a/own$late$k$k/l$k/l/f$k/.gitignore$^\n\
1^^-v|-n^18^1.u|a/1.u|1.v|a/b/1.v|slash/led|a/slash/led|slash/in|a/slash/in|user/one|x/user/one|only.r|x/1.t|x/2.t|x/z|x|user|k/1.x|none^0^.git/info/exclude:2:!*.u\t1.u$.git/info/exclude:2:!*.u\ta/1.u$/w/h/.config/git/ignore:2:*.v\t1.v$/w/h/.config/git/ignore:2:*.v\ta/b/1.v$.git/info/exclude:3:/slash/led\tslash/led$::\ta/slash/led$.git/info/exclude:4:slash/in\tslash/in$::\ta/slash/in$/w/h/.config/git/ignore:3:/user/one\tuser/one$x/.gitignore:1:*\tx/user/one$.git/info/exclude:5:/only.r\tonly.r$x/.gitignore:2:!*.t\tx/1.t$x/.gitignore:2:!*.t\tx/2.t$x/.gitignore:1:*\tx/z$::\tx$::\tuser$.git/info/exclude:1:k/\tk/1.x$::\tnone$^\n\
1^^^18^1.u|a/1.u|1.v|a/b/1.v|slash/led|a/slash/led|slash/in|a/slash/in|user/one|x/user/one|only.r|x/1.t|x/2.t|x/z|x|user|k/1.x|none^0^1.v$a/b/1.v$slash/led$slash/in$user/one$x/user/one$only.r$x/z$k/1.x$^\n\
1^a/b^-v^5^1.x|../1.x|../../1.x|c/1.x|../own^0^a/b/.gitignore:1:*.x\t1.x$a/.gitignore:1:!*.x\t../1.x$.gitignore:1:*.x\t../../1.x$a/b/.gitignore:1:*.x\tc/1.x$a/.gitignore:2:/own\t../own$^\n\
1^a/b^-v^1^../../k/l/f^0^.git/info/exclude:1:k/\t../../k/l/f$^\n\
1^a/b^^1^1.x^0^1.x$^\n\
1^a/b^^1^../1.x^1^^\n\
1^a/b^-q^1^../1.x^1^^\n\
1^a/b^-v^2^../../1.v|../../only.r^0^/w/h/.config/git/ignore:2:*.v\t../../1.v$.git/info/exclude:5:/only.r\t../../only.r$^\n\
1^^^1^k/^0^k/$^\n\
1^^-v^1^k/^0^.git/info/exclude:1:k/\tk/$^\n\
1^^-v^1^k/l/^0^.git/info/exclude:1:k/\tk/l/$^\n\
1^^-v^1^a/k/^0^.git/info/exclude:1:k/\ta/k/$^\n\
1^^--fold|-v^3^1.X|KEEP.x|A/own^0^.gitignore:1:*.x\t1.X$.gitignore:2:!keep.x\tKEEP.x$^\n\
1^^--fold^1^a/OWN^0^a/OWN$^\n\
1^^^1^1.X^1^^\n\
2^^-v|-n^11^l|dl|ld|file|file/x|real/d|real/d/x|real/x.o|real/skip/y|d|nowhere^0^.gitignore:1:l\tl$::\tdl$::\tld$::\tfile$.gitignore:4:file/\tfile/x$.gitignore:3:d/\treal/d$.gitignore:3:d/\treal/d/x$.gitignore:2:*.o\treal/x.o$.gitignore:5:real/skip\treal/skip/y$::\td$::\tnowhere$^\n\
2^^^11^l|dl|ld|file|file/x|real/d|real/d/x|real/x.o|real/skip/y|d|nowhere^0^l$file/x$real/d$real/d/x$real/x.o$real/skip/y$^\n\
2^^^1^l/x^128^^pathspec 'l/x' is beyond a symbolic link\n\
2^^^1^l/^128^^pathspec 'l/' is beyond a symbolic link\n\
2^^^1^ld/x.o^128^^pathspec 'ld/x.o' is beyond a symbolic link\n\
2^^^1^ld/../x.o^0^ld/../x.o$^\n\
2^^^1^dl/x^128^^pathspec 'dl/x' is beyond a symbolic link\n\
2^^^2^1.o|l/x^128^^pathspec 'l/x' is beyond a symbolic link\n\
2^^^2^l/x|../y^128^^pathspec 'l/x' is beyond a symbolic link\n\
2^^^2^../y|l/x^128^^../y: '../y' is outside repository at '/w/r'\n\
2^^^2^l/x|^128^^empty string is not a valid pathspec. please use . instead if you meant to match all paths\n\
2^^^1^file/^0^file/$^\n\
2^^-v^1^file/x^0^.gitignore:4:file/\tfile/x$^\n\
2^^-q^1^l/x^128^^pathspec 'l/x' is beyond a symbolic link\n\
2^^^1^real/l/x^0^real/l/x$^\n\
2^^--no-index^1^l/x^128^^pathspec 'l/x' is beyond a symbolic link\n\
2^real^^1^../l/x^128^^pathspec '../l/x' is beyond a symbolic link\n\
2^real^^1^../l^0^../l$^\n\
2^real^-v^2^d|x.o^0^.gitignore:3:d/\td$.gitignore:2:*.o\tx.o$^\n\
2^real^^1^skip^0^skip$^\n\
3^^-v|-n^6^s|.gitmodules|a/s|t|x.o|a/s/x^0^::\ts$::\t.gitmodules$.gitignore:2:s\ta/s$.gitignore:3:/t\tt$.gitignore:1:*.o\tx.o$.gitignore:2:s\ta/s/x$^\n\
3^^^6^s|.gitmodules|a/s|t|x.o|a/s/x^0^a/s$t$x.o$a/s/x$^\n\
3^^^1^s/x^128^^Pathspec 's/x' is in submodule 's'\n\
3^^^1^s/^1^^\n\
3^^^2^s/x.o|t^128^^Pathspec 's/x.o' is in submodule 's'\n\
3^^^3^t|s/y|s/x^128^^Pathspec 's/y' is in submodule 's'\n\
3^^--no-index^1^s^0^s$^\n\
3^^--no-index^1^s/x^0^s/x$^\n\
3^^-v|--no-index^2^s/x|s^0^.gitignore:2:s\ts/x$.gitignore:2:s\ts$^\n\
3^^^1^s/..^1^^\n\
3^^^1^sx^1^^\n\
3^^^2^s/x|../y^128^^../y: '../y' is outside repository at '/w/r'\n\
3^^^2^../y|s/x^128^^../y: '../y' is outside repository at '/w/r'\n\
3^a^^1^../s/x^128^^Pathspec '../s/x' is in submodule 's'\n\
3^a^^1^../s^1^^\n\
3^a^^1^s^0^s$^\n\
3^a^-v^1^../x.o^0^.gitignore:1:*.o\t../x.o$^\n\
4^^-v^4^\xc3\xa9t\xc3\xa9|ta\tb|q\"r|a b.q^0^.gitignore:2:\xc3\xa9*\t\"\\303\\251t\\303\\251\"$.gitignore:3:ta\tb\t\"ta\\tb\"$.gitignore:4:q\"*\t\"q\\\"r\"$.gitignore:1:*.q\ta b.q$^\n\
4^^--raw|-v^4^\xc3\xa9t\xc3\xa9|ta\tb|q\"r|a b.q^0^.gitignore:2:\xc3\xa9*\t\xc3\xa9t\xc3\xa9$.gitignore:3:ta\tb\t\"ta\\tb\"$.gitignore:4:q\"*\t\"q\\\"r\"$.gitignore:1:*.q\ta b.q$^\n\
4^^^5^\xc3\xa9t\xc3\xa9|ta\tb|q\"r|a b.q|x^0^\"\\303\\251t\\303\\251\"$\"ta\\tb\"$\"q\\\"r\"$a b.q$^\n\
4^^--raw^5^\xc3\xa9t\xc3\xa9|ta\tb|q\"r|a b.q|x^0^\xc3\xa9t\xc3\xa9$\"ta\\tb\"$\"q\\\"r\"$a b.q$^\n\
4^^-v^2^\xc3\xa4/pq|d\\e/inn^0^\"\\303\\244/.gitignore\":1:p*\t\"\\303\\244/pq\"$\"d\\\\e/.gitignore\":1:/in*\t\"d\\\\e/inn\"$^\n\
4^^--raw|-v^2^\xc3\xa4/pq|d\\e/inn^0^\xc3\xa4/.gitignore:1:p*\t\xc3\xa4/pq$\"d\\\\e/.gitignore\":1:/in*\t\"d\\\\e/inn\"$^\n\
4^^-v|-n^1^n\x01^1^::\t\"n\\001\"$^\n\
4^^--raw|-v|-n^1^n\x01^1^::\t\"n\\001\"$^\n\
4^^^1^x\xc3\xa4.q^0^\"x\\303\\244.q\"$^\n\
4^^--raw^1^x\xc3\xa4.q^0^x\xc3\xa4.q$^\n\
5^^-v|-n^4^a|a/f|b|a/b^1^::\ta$::\ta/f$::\tb$::\ta/b$^\n\
5^^^4^a|a/f|b|a/b^1^^\n\
5^^-q^1^a^1^^\n\
5^^--no-index^1^a/f^1^^\n\
5^^-v^1^a/f^1^^\n\
5^a^^1^f^1^^\n\
6^^-v|-n^3^a|a/f|.gitignore^0^.gitignore:1:*\ta$.gitignore:1:*\ta/f$.gitignore:1:*\t.gitignore$^\n\
6^^^3^a|a/f|.gitignore^0^a$a/f$.gitignore$^\n\
6^^^1^a/^0^a/$^\n\
6^^-v^1^a/^0^.gitignore:1:*\ta/$^\n\
6^^-q^1^a^0^^\n\
6^a^^1^.^0^.$^\n\
7^^-v|-n^8^t|a|b|a/b|c|a/c|x|a/x^0^::\tt$.git/info/exclude:3:!*/\ta$.git/info/exclude:2:!b\tb$.git/info/exclude:2:!b\ta/b$.git/info/exclude:1:*\tc$.git/info/exclude:1:*\ta/c$.git/info/exclude:1:*\tx$.git/info/exclude:1:*\ta/x$^\n\
7^^^8^t|a|b|a/b|c|a/c|x|a/x^0^c$a/c$x$a/x$^\n\
7^a^-v^2^b|../c^0^.git/info/exclude:2:!b\tb$.git/info/exclude:1:*\t../c$^\n\
7^^-z|-v|-n|--stdin^0^c\x00a\x00t\x00^0^.git/info/exclude\x001\x00*\x00c\x00.git/info/exclude\x003\x00!*/\x00a\x00\x00\x00\x00t\x00^\n\
7^^--no-index|-v^1^t^0^.git/info/exclude:1:*\tt$^\n\
7^^-q^1^c^0^^\n\
7^^--fold|-v^1^c^0^.git/info/exclude:1:*\tc$^\n\
8^^-v|-n^7^a|a/b|c|c/d|c/e|f|fy^0^.git/info/exclude:1:!a\ta$/w/h/.config/git/ignore:1:!**\ta/b$/w/h/.config/git/ignore:5:!****/\tc$/w/h/.config/git/ignore:5:!****/\tc/d$/w/h/.config/git/ignore:1:!**\tc/e$/w/h/.config/git/ignore:1:!**\tf$/w/h/.config/git/ignore:4:?*y\tfy$^\n\
8^^^7^a|a/b|c|c/d|c/e|f|fy^0^fy$^\n\
9^^-v|-n^4^a|a/b|a/c|d^0^.git/info/exclude:2:!?**/\ta$.git/info/exclude:1:?*\ta/b$.git/info/exclude:2:!?**/\ta/c$.git/info/exclude:1:?*\td$^\n\
9^^^4^a|a/b|a/c|d^0^a/b$d$^\n\
10^^-v|-n^3^a|b|a/b^0^.git/info/exclude:1:**/**\ta$.git/info/exclude:1:**/**\tb$.git/info/exclude:1:**/**\ta/b$^\n\
10^^^3^a|b|a/b^0^a$b$a/b$^\n\
12^^-v|-n^5^a|b|c|a/b|a/c^0^.git/info/exclude:3:/*\ta$.git/info/exclude:3:/*\tb$.git/info/exclude:4:!/c*\tc$.git/info/exclude:3:/*\ta/b$.git/info/exclude:3:/*\ta/c$^\n\
12^^^5^a|b|c|a/b|a/c^0^a$b$a/b$a/c$^\n\
13^^-v|-n^9^x|y|a/x|a/y|a/z|w|a/w|a/p/q|p/q^0^.gitignore:1:/x\tx$.gitignore:2:y\ty$::\ta/x$.gitignore:2:y\ta/y$.gitignore:3:!a/z\ta/z$.gitignore:4:/w\tw$::\ta/w$a/.gitignore:1:/p/q\ta/p/q$::\tp/q$^\n\
13^^^9^x|y|a/x|a/y|a/z|w|a/w|a/p/q|p/q^0^x$y$a/y$w$a/p/q$^\n\
";

/// What git answers of what is refused here by name.
pub const REFUSED: &[u8] = b"\
0^^--stdin^0^nowhere/$^1^^\n\
0^^--no-index^1^a/^1^^\n\
0^^^1^:/1.o^0^:/1.o$^\n\
0^^^1^::1.o^0^::1.o$^\n\
0^^^1^:!x^128^^:!x: pathspec magic not supported by this command: 'exclude' (mnemonic: '!')\n\
0^^^1^:(top)1.o^0^:(top)1.o$^\n\
0^^^1^/etc/passwd^128^^/etc/passwd: '/etc/passwd' is outside repository at '/w/r'\n\
0^^^1^nowhere/^1^^\n\
0^^-v^1^nowhere/./^1^^\n\
1^^^1^x/^0^x/$^\n\
1^^^1^a/b/^1^^\n\
1^^-v^1^x/^0^x/.gitignore:1:*\tx/$^\n\
5^^^1^.^1^^\n\
5^^^1^a/^1^^\n\
5^a^^1^..^1^^\n\
6^^^1^.^0^.$^\n\
6^a^-v^1^..^0^.gitignore:1:*\t..$^\n\
7^^-v^1^a/^0^.git/info/exclude:3:!*/\ta/$^\n\
11^^-v^1^a^0^.git/info/exclude:1:*\ta$^\n\
11^^^1^b^0^b$^\n\
";
