//! What words say in trees in memory, a row a line.

/// Rows, parted by `|`: words, the directory, a variable, of which one named `INPUT` has what
/// stands on the standard input, more steps, the status, and what stands on the output and on
/// standard error, parted by `^`.
pub const ROWS: &[u8] = b"\
report^/w^^^0^untracked file - always - -\t.gitignore~untracked file - always - -\tb~untracked file - always - -\td/e~^|\
report^/w/d^^^0^untracked file - always - -\t.gitignore~untracked file - always - -\tb~untracked file - always - -\td/e~^|\
report .^/w/d^^^0^untracked file - prefix - -\td/e~^|\
-C d report e^/w^^^0^untracked file - verbatim - -\td/e~^|\
plan^/w^^^0^.gitignore~b~d~^|\
plan -x^/w^^^0^.gitignore~b~c.o~d~^|\
plan -X^/w^^^0^c.o~^|\
plan^/w/d^^^128^^fatal: what is to be deleted is told at the top of the work tree; call it there: '/w'~|\
-C .. plan^/w/d^^^128^^fatal: what is to be deleted is told at the top of the work tree; call it there: '/w'~|\
-C w plan^/^^^128^^fatal: what is to be deleted is told at the top of the work tree; call it there: '/w'~|\
-C . plan e^/w^^/w/e=~^0^e~^|\
modules^/w^^^0^^|\
state^/w^^^0^untracked file - always - -\t.gitignore~untracked file - always - -\tb~untracked file - always - -\td/e~^|\
state^/w^^/w/a=y~^0^modified\ta~untracked file - always - -\t.gitignore~untracked file - always - -\tb~untracked file - always - -\td/e~^|\
state --by-stat^/w^^^0^deleted\ta~untracked file - always - -\t.gitignore~untracked file - always - -\tb~untracked file - always - -\td/e~^|\
state --by-stat^/w/d^^%/w/a=f\x05\x02^0^modified\ta~untracked file - always - -\t.gitignore~untracked file - always - -\tb~untracked file - always - -\td/e~^|\
-C w state --by-stat -z^/^^%/w/a=d\x05\x02^0^deleted\ta\0untracked file - always - -\t.gitignore\0untracked file - always - -\tb\0untracked file - always - -\td/e\0^|\
state --by-stat^/w^^/w/.git/index=DIRC\0\0\0\x02\0\0\0\x01\
\0\0\0\0\0\0\0\0\0\0\0\x05\0\0\0\0\0\0\0\0\0\0\0\0\0\0\x81\xa4\0\0\0\0\0\0\0\0\0\0\0\x02\x58\x7b\xe6\xb4\xc3\xf9\x3f\x93\xc4\x89\xc0\x11\x1b\xba\x55\x96\x14\x7a\x26\xcb\0\x01a\0\
\0\0\0\0\0\0\0\0\0\0\0\0\0\0\0\0\0\0\0\0;%/w/a=f\x05\x02;%/w/.git/index=f\x06\x68;/w/a=y~^0^untracked file - always - -\t.gitignore~untracked file - always - -\tb~untracked file - always - -\td/e~^|\
state^/w^^/w/.git/index=DIRC\0\0\0\x02\0\0\0\x01\
\0\0\0\0\0\0\0\0\0\0\0\x05\0\0\0\0\0\0\0\0\0\0\0\0\0\0\x81\xa4\0\0\0\0\0\0\0\0\0\0\0\x02\x58\x7b\xe6\xb4\xc3\xf9\x3f\x93\xc4\x89\xc0\x11\x1b\xba\x55\x96\x14\x7a\x26\xcb\0\x01a\0\
\0\0\0\0\0\0\0\0\0\0\0\0\0\0\0\0\0\0\0\0;%/w/a=f\x05\x02;%/w/.git/index=f\x06\x68;/w/a=y~^0^modified\ta~untracked file - always - -\t.gitignore~untracked file - always - -\tb~untracked file - always - -\td/e~^|\
state --by-stat^/w^^/w/.git/index=DIRC\0\0\0\x02\0\0\0\x02\
\0\0\0\0\0\0\0\0\0\0\0\0\0\0\0\0\0\0\0\0\0\0\0\0\0\0\x81\xa4\0\0\0\0\0\0\0\0\0\0\0\0\x58\x7b\xe6\xb4\xc3\xf9\x3f\x93\xc4\x89\xc0\x11\x1b\xba\x55\x96\x14\x7a\x26\xcb\x20\x01a\0\
\0\0\0\0\0\0\0\0\0\0\0\0\0\0\0\0\0\0\0\0\0\0\0\0\0\0\x81\xa4\0\0\0\0\0\0\0\0\0\0\0\0\x58\x7b\xe6\xb4\xc3\xf9\x3f\x93\xc4\x89\xc0\x11\x1b\xba\x55\x96\x14\x7a\x26\xcb\x30\x01a\0\
\0\0\0\0\0\0\0\0\0\0\0\0\0\0\0\0\0\0\0\0;%/w/a=f\x05\x02^0^conflicted\ta~untracked file - always - -\t.gitignore~untracked file - always - -\tb~untracked file - always - -\td/e~^|\
state --by-stat^/w^^/w/.git/index=DIRC\0\0\0\x02\0\0\0\x01\
\0\0\0\0\0\0\0\0\0\0\0\x05\0\0\0\0\0\0\0\0\0\0\0\0\0\0\x81\xa4\0\0\0\0\0\0\0\0\0\0\0\x02\x58\x7b\xe6\xb4\xc3\xf9\x3f\x93\xc4\x89\xc0\x11\x1b\xba\x55\x96\x14\x7a\x26\xcb\0\x01a\0\
\0\0\0\0\0\0\0\0\0\0\0\0\0\0\0\0\0\0\0\0;%/w/a=f\x05\x02;%/w/.git/index=f\x05\x68;/w/.git/info/attributes=^128^^fatal: diff-files is not supported where bytes are converted: 'a'~|\
state --by-stat^/w/.git^^^128^^fatal: this operation must be run in a work tree~|\
report --by-stat^/w^^^129^^error: unknown option `--by-stat'~usage: tizhagor [-C DIR] report|\
state --by-stat^/w^^/w/.git/index=DIRC\0\0\0\x02\0\0\0\x01\
\0\0\0\0\0\0\0\0\0\0\0\x05\0\0\0\0\0\0\0\0\0\0\0\0\0\0\x81\xa4\0\0\0\0\0\0\0\0\0\0\0\x02\x58\x7b\xe6\xb4\xc3\xf9\x3f\x93\xc4\x89\xc0\x11\x1b\xba\x55\x96\x14\x7a\x26\xcb\0\x01a\0\
\0\0\0\0\0\0\0\0\0\0\0\0\0\0\0\0\0\0\0\0;%/w/a=f\x05\x02;%/w/.git/index=f\x05\x68^0^untracked file - always - -\t.gitignore~untracked file - always - -\tb~untracked file - always - -\td/e~^|\
state --by-stat^/w^^/w/.git/index=DIRC\0\0\0\x02\0\0\0\x01\
\0\0\0\0\0\0\0\0\0\0\0\x05\0\0\0\0\0\0\0\0\0\0\0\0\0\0\x81\xa4\0\0\0\0\0\0\0\0\0\0\0\x02\x58\x7b\xe6\xb4\xc3\xf9\x3f\x93\xc4\x89\xc0\x11\x1b\xba\x55\x96\x14\x7a\x26\xcb\0\x01a\0\
\0\0\0\0\0\0\0\0\0\0\0\0\0\0\0\0\0\0\0\0;%/w/a=f\x05\x02;%/w/.git/index=f\x05\x68;/w/a=y~^0^modified\ta~untracked file - always - -\t.gitignore~untracked file - always - -\tb~untracked file - always - -\td/e~^|\
state --by-stat^/w^^/w/.git/index=DIRC\0\0\0\x02\0\0\0\x01\
\0\0\0\0\0\0\0\0\0\0\0\x05\0\0\0\0\0\0\0\0\0\0\0\0\0\0\x81\xa4\0\0\0\0\0\0\0\0\0\0\0\x02\x58\x7b\xe6\xb4\xc3\xf9\x3f\x93\xc4\x89\xc0\x11\x1b\xba\x55\x96\x14\x7a\x26\xcb\0\x01a\0\
\0\0\0\0\0\0\0\0\0\0\0\0\0\0\0\0\0\0\0\0;%/w/a=x\x05\x02;%/w/.git/index=f\x06\x68^0^modified\ta~untracked file - always - -\t.gitignore~untracked file - always - -\tb~untracked file - always - -\td/e~^|\
state --by-stat^/w^^/w/.git/index=DIRC\0\0\0\x02\0\0\0\x02\
\0\0\0\0\0\0\0\0\0\0\0\x05\0\0\0\0\0\0\0\0\0\0\0\0\0\0\x81\xa4\0\0\0\0\0\0\0\0\0\0\0\x02\x58\x7b\xe6\xb4\xc3\xf9\x3f\x93\xc4\x89\xc0\x11\x1b\xba\x55\x96\x14\x7a\x26\xcb\0\x01a\0\
\0\0\0\0\0\0\0\0\0\0\0\0\0\0\0\0\0\0\0\0\0\0\0\0\0\0\x81\xa4\0\0\0\0\0\0\0\0\0\0\0\0\x58\x7b\xe6\xb4\xc3\xf9\x3f\x93\xc4\x89\xc0\x11\x1b\xba\x55\x96\x14\x7a\x26\xcb\0\x01z\0\
\0\0\0\0\0\0\0\0\0\0\0\0\0\0\0\0\0\0\0\0^0^deleted\ta~deleted\tz~untracked file - always - -\t.gitignore~untracked file - always - -\tb~untracked file - always - -\td/e~^|\
state --by-stat^/w^^/w/.git/index=DIRC\0\0\0\x02\0\0\0\x02\
\0\0\0\0\0\0\0\0\0\0\0\x05\0\0\0\0\0\0\0\0\0\0\0\0\0\0\x81\xa4\0\0\0\0\0\0\0\0\0\0\0\x02\x58\x7b\xe6\xb4\xc3\xf9\x3f\x93\xc4\x89\xc0\x11\x1b\xba\x55\x96\x14\x7a\x26\xcb\0\x01a\0\
\0\0\0\0\0\0\0\0\0\0\0\0\0\0\0\0\0\0\0\0\0\0\0\0\0\0\xe0\0\0\0\0\0\0\0\0\0\0\0\0\0\x58\x7b\xe6\xb4\xc3\xf9\x3f\x93\xc4\x89\xc0\x11\x1b\xba\x55\x96\x14\x7a\x26\xcb\0\x01m\0\
\0\0\0\0\0\0\0\0\0\0\0\0\0\0\0\0\0\0\0\0;%/w/a=f\x05\x02;%/w/.git/index=f\x06\x68^0^untracked file - always - -\t.gitignore~untracked file - always - -\tb~untracked file - always - -\td/e~^|\
state --by-stat^/w^^/w/.git/index=DIRC\0\0\0\x02\0\0\0\x01\
\0\0\0\0\0\0\0\0\0\0\0\0\0\0\0\0\0\0\0\0\0\0\0\0\0\0\x81\xa4\0\0\0\0\0\0\0\0\0\0\0\0\x58\x7b\xe6\xb4\xc3\xf9\x3f\x93\xc4\x89\xc0\x11\x1b\xba\x55\x96\x14\x7a\x26\xcb\x80\x01a\0\
\0\0\0\0\0\0\0\0\0\0\0\0\0\0\0\0\0\0\0\0^0^untracked file - always - -\t.gitignore~untracked file - always - -\tb~untracked file - always - -\td/e~^|\
state --by-stat --color=always^/w^^^0^deleted\ta~\x1b[31muntracked file - always - -\t.gitignore\x1b[0m~\x1b[31muntracked file - always - -\tb\x1b[0m~\x1b[31muntracked file - always - -\td/e\x1b[0m~^|\
--version^/^^^0^tizhagor, unreleased~^|\
^/w^^^129^^error: no command is given~usage: tizhagor [-C DIR] report|\
frob^/w^^^129^^error: unknown command `frob'~usage: tizhagor [-C DIR] report|\
-C nowhere report^/w^^^128^^fatal: cannot change to 'nowhere': No such file or directory~|\
-C a report^/w^^^128^^fatal: cannot change to 'a': Not a directory~|\
report^/^^^128^^fatal: not a git repository (or any of the parent directories): .git~|\
report^/w/.git^^^128^^fatal: this operation must be run in a work tree~|\
report^/w^GIT_DIR=x^^128^^fatal: GIT_DIR is set, which is not heeded; unset it~|\
report^/w^^/w/.git/config=[core~^128^^fatal: bad config line 1 in file /w/.git/config~|\
report^/w^^/w/.git/config=[core]~repositoryformatversion=2~^128^^fatal: Expected git repo version <= 1, found 2 in file /w/.git/config~|\
report^/w/n^^/w/n/.git=x^128^^fatal: invalid gitfile format: /w/n/.git~|\
report^/w/n^^/w/n/.git=gitdir: x~^128^^fatal: not a git repository: /w/n/x~|\
report^/w^^/w/.git/config=[core]~repositoryformatversion=0~bare=x~^128^^fatal: bad config value for 'core.bare' in file /w/.git/config~|\
report^/w^^@/w/.git=21^128^^fatal: detected dubious ownership in repository at '/w'; to add an exception, call 'git config --global --add safe.directory DIRECTORY'~|\
report d^/w^HOME=/h^@/w/.git=21;/h/.gitconfig=[safe]~directory=/w~^0^untracked file - prefix - -\td/e~^|\
report^/w/d^^@/w/d=12^128^^fatal: not a git repository (or any parent up to mount point /w); stopping at filesystem boundary (GIT_DISCOVERY_ACROSS_FILESYSTEM not set)~|\
report .^/w/d^GIT_DISCOVERY_ACROSS_FILESYSTEM=1^@/w/d=12^0^untracked file - prefix - -\td/e~^|\
report^/w^^/w/.git/index=x^128^^fatal: /w/.git/index: index file smaller than expected; move it away, and make it anew from HEAD with 'git reset'~|\
report ../x^/w^^^128^^fatal: '../x' is outside repository~|\
report^/w^^/w/.git/config=[include]~path=more~;/w/.git/more=[core]~excludesFile=/x~;/x=b~^0^untracked file - always - -\t.gitignore~untracked file - always - -\td/e~^|\
report b^/w^^/w/.git/config=[includeIf \"onbranch:other\"]~path=more~;/w/.git/more=[core]~excludesFile=/x~;/x=b~^0^untracked file - verbatim - -\tb~^|\
report^/l^^@/l=11;@/l/.git=11;@/w/.git/worktrees/l=11;/l/.git=gitdir: /w/.git/worktrees/l~;/w/.git/worktrees/l/HEAD=ref: refs/heads/l~;/w/.git/worktrees/l/commondir=../..~;/w/.git/info/exclude=n~;/l/n=;/l/m=^0^untracked file - always - -\tm~^|\
ls-files^/w^^^0^a~^|\
ls-files -ot --exclude-standard^/w^^^0^? .gitignore~? b~? d/e~^|\
-C d ls-files -oi --exclude-standard ..^/w^^^0^../c.o~^|\
ls-files -o^/w^^/w/.git/config=[core]~quotePath=false~;/w/\xc3\xa9=^0^.gitignore~b~c.o~d/e~\xc3\xa9~^|\
ls-files -o B^/w^^/w/.git/config=[core]~ignoreCase~^0^^|\
ls-files --error-unmatch^/w/d^^^1^^error: pathspec 'd/' did not match any file(s) known to git~Did you forget to 'git add'?~|\
ls-files --error-unmatch :!/a^/w/d^^^1^^error: pathspec ':!/a' did not match any file(s) known to git~error: pathspec '.' did not match any file(s) known to git~Did you forget to 'git add'?~|\
ls-files -o --error-unmatch :!.^/w/d^^^1^^error: pathspec ':!.' did not match any file(s) known to git~error: pathspec '.' did not match any file(s) known to git~Did you forget to 'git add'?~|\
ls-files -o --error-unmatch nope b^/w^^^1^b~^error: pathspec 'nope' did not match any file(s) known to git~Did you forget to 'git add'?~|\
ls-files -o --error-unmatch :!e^/w^^^0^.gitignore~b~c.o~d/e~^|\
ls-files -i^/w^^^128^^fatal: ls-files -i must be used with either -o or -c~|\
ls-files -kt^/w^^/w/.git/index=DIRC\0\0\0\x02\0\0\0\x01\0\0\0\0\0\0\0\0\0\0\0\0\0\0\0\0\0\0\0\0\0\0\0\0\0\0\x81\xa4\
\0\0\0\0\0\0\0\0\0\0\0\0\x58\x7b\xe6\xb4\xc3\xf9\x3f\x93\xc4\x89\xc0\x11\x1b\xba\x55\x96\x14\x7a\x26\xcb\0\x03b/x\
\0\0\0\0\0\0\0\0\0\0\0\0\0\0\0\0\0\0\0\0\0\0\0\0\0\0\0^0^K b~^|\
ls-files -ox b --exclude-standard^/w^^^0^.gitignore~d/e~^|\
ls-files -o --exclude=#d -x e --exclude-per-directory=.gitignore^/w^^/w/#d=;/w/.git/info/exclude=b~^0^.gitignore~b~^|\
ls-files -ox b^/w^^^0^.gitignore~c.o~d/e~^|\
ls-files -oix d^/w^^^0^d/e~^|\
ls-files -oix d --directory^/w^^^0^d/~^|\
ls-files -oix e --directory^/w^^/w/e/x.o=^0^d/~d/e~e/~^|\
ls-files -oi --directory --exclude-standard^/w^^/w/e/x.o=^0^c.o~e/~e/x.o~^|\
ls-files -oit --directory --no-empty-directory --exclude-standard^/w^^/w/e/x.o=^0^? c.o~? e/~^|\
ls-files -oi --directory --exclude-standard -x !*.o -x b^/w^^/w/e/x.o=^0^b~^|\
ls-files -oi --directory --exclude-standard .^/w^^^128^^fatal: ls-files -i --directory is not supported with -k, path specs, or below the top~|\
ls-files -oix e --directory^/w/d^^^128^^fatal: ls-files -i --directory is not supported with -k, path specs, or below the top~|\
ls-files -kix b --directory -o^/w^^^128^^fatal: ls-files -i --directory is not supported with -k, path specs, or below the top~|\
ls-files -kx b^/w^^^128^^fatal: ls-files -x or -X alone is not supported with -k, or with --directory and no -i~|\
ls-files -oX r^/w^^/w/r=b~^0^.gitignore~c.o~d/e~r~^|\
ls-files -o --exclude-from=r^/w/d^^/w/r=e~^0^^|\
ls-files -ot -X r ..^/w/d^^/w/r=b^0^? ../.gitignore~? ../c.o~? e~? ../r~^|\
ls-files -o -X q --exclude-standard^/w^^/w/q=!e~;/w/.git/info/exclude=e~^0^.gitignore~b~q~^|\
ls-files -o --exclude-standard -X q^/w^^/w/q=!e~;/w/.git/info/exclude=e~^0^.gitignore~b~d/e~q~^|\
ls-files -o -X q --exclude-standard -X r^/w^^/w/q=!e~b~;/w/r=!e~;/w/.git/info/exclude=e~^0^.gitignore~d/e~q~r~^|\
ls-files -o -X q -X r^/w^^/w/q=!b~d~;/w/r=b~^0^.gitignore~c.o~q~r~^|\
ls-files -o -X r -X q^/w^^/w/q=!b~d~;/w/r=b~^0^.gitignore~b~c.o~q~r~^|\
ls-files -oiX q -x !d -x b^/w^^/w/q=!b~d~^0^b~^|\
ls-files -o -X r --exclude-per-directory=.gitignore -x !b^/w^^/w/r=*~^0^b~^|\
ls-files -oX s^/w^^/w/s=\xef\xbb\xbf*^0^^|\
ls-files -X r^/w^^/w/r=a~^0^a~^|\
ls-files -c -X nope^/w^^^128^^fatal: cannot use nope as an exclude file~|\
ls-files -oX d^/w^^^128^^fatal: cannot use d as an exclude file~|\
ls-files -oX^/w^^^129^^error: switch `X' requires a value~usage: tizhagor [-C DIR] ls-files|\
clean -n^/w^^^0^Would remove .gitignore~Would remove b~^|\
clean b -X -nd .^/w^^^0^Would remove c.o~^|\
clean -ndx ..^/w/d^^^0^Would remove ../.gitignore~Would remove ../b~Would remove ../c.o~Would refuse to remove current working directory~Would remove ./e~^|\
-C d clean -nd^/w^^^128^^fatal: clean is not supported with -C: it works in the current directory~|\
-C ../w clean -nX^/w^^^0^Would remove c.o~^|\
clean -nebd -e #d -e d^/w^^/w/#d=;/w/bd=^0^Would remove .gitignore~Would remove b~^|\
clean -fnd^/w^^/w/n/.git/objects;/w/n/.git/refs;/w/n/.git/HEAD=ref: refs/heads/main~;/w/n/f=^0^Would remove .gitignore~Would remove b~Would remove d/~^|\
clean -fnd^/w^^/w/.git/config=[clean]~requireForce=no~;/w/n/.git/objects;/w/n/.git/refs;/w/n/.git/HEAD=ref: refs/heads/main~;/w/n/f=^0^Would remove .gitignore~Would remove b~Would remove d/~Would remove n/~^|\
clean -n \xc3\xa9^/w^^/w/.git/config=[core]~quotePath=false~;/w/\xc3\xa9=^0^Would remove \xc3\xa9~^|\
clean^/w^^^128^^fatal: clean.requireForce defaults to true and neither -i, -n, nor -f given; refusing to clean~|\
clean -nxX^/w^^^128^^fatal: -x and -X cannot be used together~|\
clean -fd^/w^^^128^^fatal: clean is not supported without -n: nothing is removed~|\
clean -n -e^/w^^^129^^error: switch `e' requires a value~usage: tizhagor clean|\
clean -ni^/w^^^129^^error: switch `i' is git's, and is not answered here~usage: tizhagor clean|\
diff-files^/w^^^0^:100644 000000 587be6b4c3f93f93c489c0111bba5596147a26cb 0000000000000000000000000000000000000000 D\ta~^|\
diff-files --exit-code --name-only --raw^/w^^^1^a~^|\
diff-files --quiet^/w^^^1^^|\
diff-files -- nowhere^/w^^^0^^|\
ls-files -m^/w^^^0^a~^|\
-C d ls-files -t -d -m -- ..^/w^^^0^R ../a~C ../a~^|\
ls-files -d^/w/d^^^0^^|\
ls-files -m -c^/w^^%/w/a=f\x05\x02^0^a~^|\
ls-files -m^/w^^%/w/a=f\x05\x02;/w/a=y~^0^a~^|\
ls-files -d --error-unmatch b^/w^^^1^^error: pathspec 'b' did not match any file(s) known to git~Did you forget to 'git add'?~|\
ls-files -mo --exclude-standard^/w^^%/w/a=f\x05\x02;/w/a=y~^0^.gitignore~b~d/e~a~^|\
-C d ls-files -o -m -t -- ..^/w^^%/w/a=f\x05\x02;/w/a=y~^0^? ../.gitignore~? ../b~? ../c.o~? e~C ../a~^|\
ls-files -o -s -m --exclude-standard b a^/w^^%/w/a=f\x05\x02;/w/a=y~^0^b~100644 587be6b4c3f93f93c489c0111bba5596147a26cb 0\ta~100644 587be6b4c3f93f93c489c0111bba5596147a26cb 0\ta~^|\
ls-files -tokd --exclude-standard^/w^^/w/.git/index=DIRC\0\0\0\x02\0\0\0\x01\0\0\0\0\0\0\0\0\0\0\0\0\0\0\0\0\0\0\0\0\0\0\0\0\0\0\x81\xa4\
\0\0\0\0\0\0\0\0\0\0\0\0\x58\x7b\xe6\xb4\xc3\xf9\x3f\x93\xc4\x89\xc0\x11\x1b\xba\x55\x96\x14\x7a\x26\xcb\0\x03b/x\
\0\0\0\0\0\0\0\0\0\0\0\0\0\0\0\0\0\0\0\0\0\0\0\0\0\0\0^0^? .gitignore~? a~? b~? d/e~K b~R b/x~^|\
ls-files -iom^/w^^^128^^fatal: ls-files --ignored needs some exclude pattern~|\
ls-files -ikm -x b^/w^^^128^^fatal: ls-files -i must be used with either -o or -c~|\
ls-files -ikcm -x b^/w^^^128^^fatal: ls-files -i is not supported for what the index has~|\
ls-files -iom -x b^/w^^^128^^fatal: ls-files -i is not supported for what the index has~|\
ls-files -ci --exclude-standard^/w^^^0^^|\
ls-files -ci --exclude-standard^/w^^/w/.gitignore=a~^0^a~^|\
ls-files -ci --exclude-standard ..^/w/d^^/w/.gitignore=a~^0^../a~^|\
ls-files -cix a^/w^^^0^a~^|\
ls-files -ci^/w^^^128^^fatal: ls-files --ignored needs some exclude pattern~|\
ls-files -cit -X q --exclude-standard^/w^^/w/q=!a~;/w/.git/info/exclude=a~^0^H a~^|\
ls-files -cit --exclude-standard -X q^/w^^/w/q=!a~;/w/.git/info/exclude=a~^0^^|\
ls-files -ci --exclude-standard^/w^^/w/.git/info/exclude=*~^0^a~^|\
ls-files -cix * -x !a^/w^^^0^^|\
ls-files -cix m/^/w^^/w/.git/index=DIRC\0\0\0\x02\0\0\0\x01\0\0\0\0\0\0\0\0\0\0\0\0\0\0\0\0\0\0\0\0\0\0\0\0\0\0\xe0\0\
\0\0\0\0\0\0\0\0\0\0\0\0\x58\x7b\xe6\xb4\xc3\xf9\x3f\x93\xc4\x89\xc0\x11\x1b\xba\x55\x96\x14\x7a\x26\xcb\0\x01m\0\
\0\0\0\0\0\0\0\0\0\0\0\0\0\0\0\0\0\0\0\0^0^^|\
ls-files -cix m/^/w^^/w/.git/index=DIRC\0\0\0\x02\0\0\0\x01\0\0\0\0\0\0\0\0\0\0\0\0\0\0\0\0\0\0\0\0\0\0\0\0\0\0\xe0\0\
\0\0\0\0\0\0\0\0\0\0\0\0\x58\x7b\xe6\xb4\xc3\xf9\x3f\x93\xc4\x89\xc0\x11\x1b\xba\x55\x96\x14\x7a\x26\xcb\0\x01m\0\
\0\0\0\0\0\0\0\0\0\0\0\0\0\0\0\0\0\0\0\0;/w/m^0^m~^|\
ls-files -cix a/^/w^^/w/a/x=^0^a~^|\
ls-files -ci --error-unmatch -x b a^/w^^^1^^error: pathspec 'a' did not match any file(s) known to git~Did you forget to 'git add'?~|\
ls-files -ci --exclude-per-directory=.gitignore^/w^^/w/.gitignore=b~;/w/.git/index=DIRC\0\0\0\x02\0\0\0\x01\0\0\0\0\0\0\0\0\0\0\0\0\0\0\0\0\0\0\0\0\0\0\0\0\0\0\x81\xa4\
\0\0\0\0\0\0\0\0\0\0\0\0\x58\x7b\xe6\xb4\xc3\xf9\x3f\x93\xc4\x89\xc0\x11\x1b\xba\x55\x96\x14\x7a\x26\xcb\0\x03b/x\
\0\0\0\0\0\0\0\0\0\0\0\0\0\0\0\0\0\0\0\0\0\0\0\0\0\0\0^0^b/x~^|\
ls-files -om --error-unmatch a^/w^^^128^^fatal: ls-files --error-unmatch is not supported with -d or -m beside -o or -k~|\
-C d diff-files --name-status -q -- ..^/w^^^0^D\ta~^|\
diff-files^/w^^%/w/a=f\x05\x02^0^:100644 100644 587be6b4c3f93f93c489c0111bba5596147a26cb 0000000000000000000000000000000000000000 M\ta~^|\
diff-files^/w^^/w/.git/config=[core]~fileMode=false~;%/w/a=x\x05\x02^0^:100644 100644 587be6b4c3f93f93c489c0111bba5596147a26cb 0000000000000000000000000000000000000000 M\ta~^|\
diff-files^/w^^/w/.git/index=DIRC\0\0\0\x02\0\0\0\x01\0\0\0\0\0\0\0\0\0\0\0\x05\0\0\0\0\0\0\0\0\0\0\0\0\0\0\x81\xa4\
\0\0\0\0\0\0\0\0\0\0\0\x02\x58\x7b\xe6\xb4\xc3\xf9\x3f\x93\xc4\x89\xc0\x11\x1b\xba\x55\x96\x14\x7a\x26\xcb\0\x01a\0\
\0\0\0\0\0\0\0\0\0\0\0\0\0\0\0\0\0\0\0\0;%/w/a=f\x05\x02;%/w/.git/index=f\x06\x68;/w/a=y~^0^^|\
diff-files --name-status^/w^^/w/.git/index=DIRC\0\0\0\x02\0\0\0\x01\0\0\0\0\0\0\0\0\0\0\0\x05\0\0\0\0\0\0\0\0\0\0\0\0\0\0\x81\xa4\
\0\0\0\0\0\0\0\0\0\0\0\x02\x58\x7b\xe6\xb4\xc3\xf9\x3f\x93\xc4\x89\xc0\x11\x1b\xba\x55\x96\x14\x7a\x26\xcb\0\x01a\0\
\0\0\0\0\0\0\0\0\0\0\0\0\0\0\0\0\0\0\0\0;%/w/a=f\x05\x02;%/w/.git/index=f\x05\x68;/w/a=y~^0^M\ta~^|\
diff-files --exit-code^/w^^/w/.git/index=DIRC\0\0\0\x02\0\0\0\x01\0\0\0\0\0\0\0\0\0\0\0\x05\0\0\0\0\0\0\0\0\0\0\0\0\0\0\x81\xa4\
\0\0\0\0\0\0\0\0\0\0\0\x02\x58\x7b\xe6\xb4\xc3\xf9\x3f\x93\xc4\x89\xc0\x11\x1b\xba\x55\x96\x14\x7a\x26\xcb\0\x01a\0\
\0\0\0\0\0\0\0\0\0\0\0\0\0\0\0\0\0\0\0\0;%/w/a=f\x05\x02;%/w/.git/index=f\x05\x68^0^^|\
diff-files^/w^^/w/.git/index=DIRC\0\0\0\x02\0\0\0\x01\0\0\0\0\0\0\0\0\0\0\0\x05\0\0\0\0\0\0\0\0\0\0\0\0\0\0\x81\xa4\
\0\0\0\0\0\0\0\0\0\0\0\x02\x58\x7b\xe6\xb4\xc3\xf9\x3f\x93\xc4\x89\xc0\x11\x1b\xba\x55\x96\x14\x7a\x26\xcb\0\x01a\0\
\0\0\0\0\0\0\0\0\0\0\0\0\0\0\0\0\0\0\0\0;%/w/a=f\x05\x02;%/w/.git/index=f\x05\x68;/w/.git/info/attributes=^128^^fatal: diff-files is not supported where bytes are converted: 'a'~|\
diff-files --name-only --name-status^/w^^^128^^fatal: options '--name-only', '--name-status', '--check', and '-s' cannot be used together~|\
diff-files^/w^^/w/.git/config=[core]~fsmonitor~^128^^fatal: core.fsmonitor is set, which is not heeded; unset it~|\
diff-files^/w^^/w/.git/index=DIRC\0\0\0\x02\0\0\0\x01\0\0\0\0\0\0\0\0\0\0\0\0\0\0\0\0\0\0\0\0\0\0\0\0\0\0\xe0\0\
\0\0\0\0\0\0\0\0\0\0\0\0\x58\x7b\xe6\xb4\xc3\xf9\x3f\x93\xc4\x89\xc0\x11\x1b\xba\x55\x96\x14\x7a\x26\xcb\0\x01m\0\
\0\0\0\0\0\0\0\0\0\0\0\0\0\0\0\0\0\0\0\0^128^^fatal: diff-files is not supported for ignored submodules: 'm'~|\
diff-files --name-status --ignore-submodules=none^/w^^/w/.git/index=DIRC\0\0\0\x02\0\0\0\x01\0\0\0\0\0\0\0\0\0\0\0\0\0\0\0\0\0\0\0\0\0\0\0\0\0\0\xe0\0\
\0\0\0\0\0\0\0\0\0\0\0\0\x58\x7b\xe6\xb4\xc3\xf9\x3f\x93\xc4\x89\xc0\x11\x1b\xba\x55\x96\x14\x7a\x26\xcb\0\x01m\0\
\0\0\0\0\0\0\0\0\0\0\0\0\0\0\0\0\0\0\0\0^0^D\tm~^|\
diff-files --exit-code --ignore-submodules^/w^^/w/.git/index=DIRC\0\0\0\x02\0\0\0\x01\0\0\0\0\0\0\0\0\0\0\0\0\0\0\0\0\0\0\0\0\0\0\0\0\0\0\xe0\0\
\0\0\0\0\0\0\0\0\0\0\0\0\x58\x7b\xe6\xb4\xc3\xf9\x3f\x93\xc4\x89\xc0\x11\x1b\xba\x55\x96\x14\x7a\x26\xcb\0\x01m\0\
\0\0\0\0\0\0\0\0\0\0\0\0\0\0\0\0\0\0\0\0;/w/.gitmodules=[submodule \"n\"]~path=m~ignore=none~^0^^|\
diff-files --name-status^/w^^/w/.git/index=DIRC\0\0\0\x02\0\0\0\x01\0\0\0\0\0\0\0\0\0\0\0\0\0\0\0\0\0\0\0\0\0\0\0\0\0\0\xe0\0\
\0\0\0\0\0\0\0\0\0\0\0\0\x58\x7b\xe6\xb4\xc3\xf9\x3f\x93\xc4\x89\xc0\x11\x1b\xba\x55\x96\x14\x7a\x26\xcb\0\x01m\0\
\0\0\0\0\0\0\0\0\0\0\0\0\0\0\0\0\0\0\0\0;/w/.git/config=[diff]~ignoreSubmodules=all~;/w/.gitmodules=[submodule \"n\"]~path=m~ignore=dirty~^0^D\tm~^|\
diff-files --name-status^/w^^/w/.git/index=DIRC\0\0\0\x02\0\0\0\x01\0\0\0\0\0\0\0\0\0\0\0\0\0\0\0\0\0\0\0\0\0\0\0\0\0\0\xe0\0\
\0\0\0\0\0\0\0\0\0\0\0\0\x58\x7b\xe6\xb4\xc3\xf9\x3f\x93\xc4\x89\xc0\x11\x1b\xba\x55\x96\x14\x7a\x26\xcb\0\x01m\0\
\0\0\0\0\0\0\0\0\0\0\0\0\0\0\0\0\0\0\0\0;/w/.gitmodules=[submodule \"n\"]~path=m~ignore=all~^128^^fatal: diff-files is not supported for ignored submodules: 'm'~|\
diff-files a^/w^^^129^^error: `a' may be a revision; write `--' before paths~usage: tizhagor [-C DIR] diff-files|\
check-ignore c.o b d/e^/w^^^0^c.o~^|\
check-ignore -v -n ../c.o x.o b^/w/d^^^0^.gitignore:1:*.o\t../c.o~.gitignore:1:*.o\tx.o~::\tb~^|\
-C d check-ignore -q x.o^/w^^^0^^|\
check-ignore b^/w^^^1^^|\
check-ignore -v x.u n /w/x.v^/w^^/w/.git/config=[core]~excludesFile=u~;/w/u=*.u~;/w/.git/info/exclude=n~/*.v~^0^u:1:*.u\tx.u~.git/info/exclude:1:n\tn~.git/info/exclude:2:/*.v\t/w/x.v~^|\
check-ignore -v x.u^/w^HOME=/h^/h/.config/git/ignore=~*.u~^0^/h/.config/git/ignore:2:*.u\tx.u~^|\
check-ignore -v a^/w^^/w/.git/info/exclude=a~^1^^|\
check-ignore -v x n^/w^^/w/.git/info/exclude=x\r~n\r^0^.git/info/exclude:1:x\tx~.git/info/exclude:2:n\tn~^|\
check-ignore -v x^/w/n^^/w/n/.git=gitdir: /w/.git/worktrees/t~;/w/.git/worktrees/t/HEAD=ref: refs/heads/t~;/w/.git/worktrees/t/commondir=../..~;/w/.git/info/exclude=x~;@/w/.git/worktrees/t=11^0^/w/.git/info/exclude:1:x\tx~^|\
check-ignore -v --no-index a^/w^^/w/.git/info/exclude=a~^0^.git/info/exclude:1:a\ta~^|\
check-ignore \xc3\xa9.o^/w^^^0^\"\\303\\251.o\"~^|\
check-ignore \xc3\xa9.o^/w^^/w/.git/config=[core]~quotePath=no~^0^\xc3\xa9.o~^|\
check-ignore C.O^/w^^/w/.git/config=[core]~ignoreCase~^0^C.O~^|\
check-ignore c.o ../x^/w^^^128^^fatal: ../x: '../x' is outside repository at '/w'~|\
check-ignore -v d/^/w^^^128^^fatal: check-ignore is not supported with a directory that is neither tracked nor ignored: 'd/'~|\
check-ignore -v x^/w^^/w/.git/info/exclude=y~*~^0^.git/info/exclude:2:*\tx~^|\
check-ignore -v x^/w^HOME=/h^/h/.config/git/ignore=*~^0^/h/.config/git/ignore:1:*\tx~^|\
check-ignore -v x y/^/w^^/w/y/z=;/w/.git/info/exclude=\xef\xbb\xbf**/~?*~^0^.git/info/exclude:2:?*\tx~.git/info/exclude:2:?*\ty/~^|\
check-ignore^/w^^^128^^fatal: no path specified~|\
check-ignore -nq a b^/w^^^128^^fatal: --quiet is only valid with a single pathname~|\
check-ignore --stdin^/w^INPUT=c.o~b~\"d\\057x.o\"~^^0^c.o~d/x.o~^|\
check-ignore --stdin -vzn^/w/d^INPUT=x.o\0../b\0^^0^.gitignore\01\0*.o\0x.o\0\0\0\0../b\0^|\
check-ignore --stdin -q^/w^INPUT=b~^^1^^|\
check-ignore --stdin^/w^INPUT=c.o~\"c.o~^^128^^fatal: line is badly quoted~|\
check-ignore --stdin c.o^/w^INPUT=c.o~^^128^^fatal: cannot specify pathnames with --stdin~|\
check-ignore --verb a^/w^^^129^^error: unknown option `--verb'~usage: tizhagor [-C DIR] check-ignore|\
state a^/w^^^129^^error: `a' is a path, and this command takes none~|\
state^/w^^/w/a=y~;/w/.git/index=DIRC\0\0\0\x04\0\0\0\x01\
\0\0\0\0\0\0\0\0\0\0\0\0\0\0\0\0\0\0\0\0\0\0\0\0\0\0\x81\xa4\0\0\0\0\0\0\0\0\0\0\0\0\
\x58\x7b\xe6\xb4\xc3\xf9\x3f\x93\xc4\x89\xc0\x11\x1b\xba\x55\x96\x14\x7a\x26\xcb\0\x01\0a\0\
\0\0\0\0\0\0\0\0\0\0\0\0\0\0\0\0\0\0\0\0^0^modified\ta~untracked file - always - -\t.gitignore~untracked file - always - -\tb~untracked file - always - -\td/e~^";
