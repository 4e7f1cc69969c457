//! Whose repositories are read, and where borders are, as git version 2.39.5 answers; made by `scripts/ask-git-owners`.

/// What git answers, what is set, who owns what, and the steps of a tree.
pub const ANSWERS: &[u8] = b"\
found /w/r /w/r/.git^user=1234;dir=/w/r/a;home=/w/h^/proc/self=1234,9@0,9;/=0,1;/w=1234,1;/w/r=1234,1;/w/r/.git=1234,1;/w/r/a=1234,1;/w/r/a/b=1234,1^d /w/r/a/b;g /w/r/.git\n\
foreign /w/r^user=1234;dir=/w/r/a;home=/w/h^/proc/self=1234,9@0,9;/=0,1;/w=1235,1;/w/r=1235,1;/w/r/.git=1235,1;/w/r/a=1235,1;/w/r/a/b=1235,1^d /w/r/a/b;g /w/r/.git\n\
foreign /w/r^user=1234;dir=/w/r/a;home=/w/h^/proc/self=1234,9@0,9;/=0,1;/w=1234,1;/w/r=1234,1;/w/r/.git=1235,1;/w/r/a=1234,1;/w/r/a/b=1234,1^d /w/r/a/b;g /w/r/.git\n\
foreign /w/r^user=1234;dir=/w/r/a;home=/w/h^/proc/self=1234,9@0,9;/=0,1;/w=1234,1;/w/r=1234,1;/w/r/.git=1235,1;/w/r/a=1234,1;/w/r/a/b=1234,1^d /w/r/a/b;g /w/r/.git\n\
foreign /w/r^user=1234;dir=/w/r/a;home=/w/h^/proc/self=1234,9@0,9;/=0,1;/w=1234,1;/w/r=1235,1;/w/r/.git=1234,1;/w/r/a=1234,1;/w/r/a/b=1234,1^d /w/r/a/b;g /w/r/.git\n\
found /w/r /w/r/.git^user=1234;dir=/w/r/a;home=/w/h^/proc/self=1234,9@0,9;/=0,1;/w=1235,1;/w/r=1234,1;/w/r/.git=1234,1;/w/r/a=1235,1;/w/r/a/b=1235,1^d /w/r/a/b;g /w/r/.git\n\
foreign /w/r^user=1234;dir=/w/r/a;home=/w/h^/proc/self=1234,9@0,9;/=0,1;/w=1234,1;/w/r=1234,1;/w/r/.git=0,1;/w/r/a=1234,1;/w/r/a/b=1234,1^d /w/r/a/b;g /w/r/.git\n\
found /w/r /w/r/.git^user=1234;dir=/w/r/a;home=/w/h^/proc/self=1234,9@0,9;/=0,1;/w=1234,1;/w/r=1234,1;/w/r/.git=1234,1;/w/r/a=1234,1;/w/r/a/b=1234,1^d /w/r/a/b;g /w/r/.git\n\
found /w/r /w/r/.git^user=1234;dir=/w/r/a;home=/w/h^/proc/self=1234,9@0,9;/=0,1;/w=1234,1;/w/r=1234,1;/w/r/.git=1234,1;/w/r/a=1235,1;/w/r/a/b=1235,1^d /w/r/a/b;g /w/r/.git\n\
found /w/r /w/r/.git^user=1234;dir=/w/r/a;home=/w/h^/proc/self=1234,9@0,9;/=0,1;/w=1235,1;/w/r=1234,1;/w/r/.git=1234,1;/w/r/a=1234,1;/w/r/a/b=1234,1^d /w/r/a/b;g /w/r/.git\n\
no-repository^user=1234;dir=/w/r/a;home=/w/h^/proc/self=1234,9@0,9;/=0,1;/w=1235,1;/w/r=1235,1;/w/r/a=1235,1^d /w/r/a\n\
found /w/r /w/r/.git^user=0;dir=/w/r/a;home=/w/h^/proc/self=0,9@0,9;/=0,1;/w=0,1;/w/r=0,1;/w/r/.git=0,1;/w/r/a=0,1;/w/r/a/b=0,1^d /w/r/a/b;g /w/r/.git\n\
foreign /w/r^user=0;dir=/w/r/a;home=/w/h^/proc/self=0,9@0,9;/=0,1;/w=1234,1;/w/r=1234,1;/w/r/.git=1234,1;/w/r/a=1234,1;/w/r/a/b=1234,1^d /w/r/a/b;g /w/r/.git\n\
foreign /w/r^user=0;dir=/w/r/a;home=/w/h^/proc/self=0,9@0,9;/=0,1;/w=0,1;/w/r=0,1;/w/r/.git=1234,1;/w/r/a=0,1;/w/r/a/b=0,1^d /w/r/a/b;g /w/r/.git\n\
found /w/r /w/r/.git^user=0;dir=/w/r/a;home=/w/h;sudo=1234^/proc/self=0,9@0,9;/=0,1;/w=1234,1;/w/r=1234,1;/w/r/.git=1234,1;/w/r/a=1234,1;/w/r/a/b=1234,1^d /w/r/a/b;g /w/r/.git\n\
found /w/r /w/r/.git^user=0;dir=/w/r/a;home=/w/h;sudo=1234^/proc/self=0,9@0,9;/=0,1;/w=0,1;/w/r=0,1;/w/r/.git=1234,1;/w/r/a=0,1;/w/r/a/b=0,1^d /w/r/a/b;g /w/r/.git\n\
found /w/r /w/r/.git^user=0;dir=/w/r/a;home=/w/h;sudo=1234^/proc/self=0,9@0,9;/=0,1;/w=0,1;/w/r=0,1;/w/r/.git=0,1;/w/r/a=0,1;/w/r/a/b=0,1^d /w/r/a/b;g /w/r/.git\n\
foreign /w/r^user=0;dir=/w/r/a;home=/w/h;sudo=1234^/proc/self=0,9@0,9;/=0,1;/w=1235,1;/w/r=1235,1;/w/r/.git=1235,1;/w/r/a=1235,1;/w/r/a/b=1235,1^d /w/r/a/b;g /w/r/.git\n\
foreign /w/r^user=0;dir=/w/r/a;home=/w/h;sudo=^/proc/self=0,9@0,9;/=0,1;/w=1234,1;/w/r=1234,1;/w/r/.git=1234,1;/w/r/a=1234,1;/w/r/a/b=1234,1^d /w/r/a/b;g /w/r/.git\n\
foreign /w/r^user=0;dir=/w/r/a;home=/w/h;sudo=x^/proc/self=0,9@0,9;/=0,1;/w=1234,1;/w/r=1234,1;/w/r/.git=1234,1;/w/r/a=1234,1;/w/r/a/b=1234,1^d /w/r/a/b;g /w/r/.git\n\
foreign /w/r^user=0;dir=/w/r/a;home=/w/h;sudo=1234x^/proc/self=0,9@0,9;/=0,1;/w=1234,1;/w/r=1234,1;/w/r/.git=1234,1;/w/r/a=1234,1;/w/r/a/b=1234,1^d /w/r/a/b;g /w/r/.git\n\
foreign /w/r^user=0;dir=/w/r/a;home=/w/h;sudo=12^/proc/self=0,9@0,9;/=0,1;/w=1234,1;/w/r=1234,1;/w/r/.git=1234,1;/w/r/a=1234,1;/w/r/a/b=1234,1^d /w/r/a/b;g /w/r/.git\n\
foreign /w/r^user=0;dir=/w/r/a;home=/w/h;sudo=12345^/proc/self=0,9@0,9;/=0,1;/w=1234,1;/w/r=1234,1;/w/r/.git=1234,1;/w/r/a=1234,1;/w/r/a/b=1234,1^d /w/r/a/b;g /w/r/.git\n\
foreign /w/r^user=0;dir=/w/r/a;home=/w/h;sudo=0^/proc/self=0,9@0,9;/=0,1;/w=1234,1;/w/r=1234,1;/w/r/.git=1234,1;/w/r/a=1234,1;/w/r/a/b=1234,1^d /w/r/a/b;g /w/r/.git\n\
foreign /w/r^user=1234;dir=/w/r/a;home=/w/h;sudo=1235^/proc/self=1234,9@0,9;/=0,1;/w=1235,1;/w/r=1235,1;/w/r/.git=1235,1;/w/r/a=1235,1;/w/r/a/b=1235,1^d /w/r/a/b;g /w/r/.git\n\
foreign /w/r^user=1234;dir=/w/r/a;home=/w/h;sudo=0^/proc/self=1234,9@0,9;/=0,1;/w=0,1;/w/r=0,1;/w/r/.git=0,1;/w/r/a=0,1;/w/r/a/b=0,1^d /w/r/a/b;g /w/r/.git\n\
found /w/r /w/m^user=1234;dir=/w/r/a;home=/w/h^/proc/self=1234,9@0,9;/=0,1;/w=1234,1;/w/m=1234,1;/w/r=1234,1;/w/r/.git=1234,1;/w/r/a=1234,1^g /w/m;d /w/r/a;f /w/r/.git=gitdir: /w/m$\n\
foreign /w/r^user=1234;dir=/w/r/a;home=/w/h^/proc/self=1234,9@0,9;/=0,1;/w=1234,1;/w/m=1235,1;/w/r=1234,1;/w/r/.git=1234,1;/w/r/a=1234,1^g /w/m;d /w/r/a;f /w/r/.git=gitdir: /w/m$\n\
foreign /w/r^user=1234;dir=/w/r/a;home=/w/h^/proc/self=1234,9@0,9;/=0,1;/w=1234,1;/w/m=1234,1;/w/r=1234,1;/w/r/.git=1235,1;/w/r/a=1234,1^g /w/m;d /w/r/a;f /w/r/.git=gitdir: /w/m$\n\
foreign /w/r^user=1234;dir=/w/r/a;home=/w/h^/proc/self=1234,9@0,9;/=0,1;/w=1234,1;/w/m=1234,1;/w/r=1235,1;/w/r/.git=1234,1;/w/r/a=1234,1^g /w/m;d /w/r/a;f /w/r/.git=gitdir: /w/m$\n\
foreign /w/r^user=1234;dir=/w/r/a;home=/w/h^/proc/self=1234,9@0,9;/=0,1;/w=1234,1;/w/l=1235,1@1234,1;/w/m=1235,1;/w/r=1234,1;/w/r/.git=1234,1;/w/r/a=1234,1^g /w/m;d /w/r/a;f /w/r/.git=gitdir: /w/l$;l /w/l=m\n\
found /w/r /w/m^user=1234;dir=/w/r/a;home=/w/h^/proc/self=1234,9@0,9;/=0,1;/w=1234,1;/w/l=1234,1@1235,1;/w/m=1234,1;/w/r=1234,1;/w/r/.git=1234,1;/w/r/a=1234,1^g /w/m;d /w/r/a;f /w/r/.git=gitdir: /w/l$;l /w/l=m\n\
found /w/r /w/m^user=1234;dir=/w/r/a;home=/w/h^/proc/self=1234,9@0,9;/=0,1;/w=1234,1;/w/m=1235,1;/w/r=1234,1;/w/r/.git=1235,1@1234,1;/w/r/a=1234,1^g /w/m;d /w/r/a;l /w/r/.git=../m\n\
foreign /w/r^user=1234;dir=/w/r/a;home=/w/h^/proc/self=1234,9@0,9;/=0,1;/w=1234,1;/w/m=1234,1;/w/r=1234,1;/w/r/.git=1234,1@1235,1;/w/r/a=1234,1^g /w/m;d /w/r/a;l /w/r/.git=../m\n\
git-file-form^user=1234;dir=/w/r/a;home=/w/h^/proc/self=1234,9@0,9;/=0,1;/w=1235,1;/w/r=1235,1;/w/r/.git=1235,1;/w/r/a=1235,1^d /w/r/a;f /w/r/.git=x\n\
found /w/r /w/r/.git^user=1234;dir=/w/r/a;home=/w/h^/proc/self=1234,9@0,9;/=0,1;/w=1234,1;/w/h=1234,1;/w/h/.gitconfig=1234,1;/w/r=1234,1;/w/r/.git=1235,1;/w/r/a=1234,1;/w/r/a/b=1234,1^d /w/r/a/b;g /w/r/.git;f /w/h/.gitconfig=[safe]$directory=/w/r$\n\
foreign /w/r^user=1234;dir=/w/r/a;home=/w/h^/proc/self=1234,9@0,9;/=0,1;/w=1234,1;/w/h=1234,1;/w/h/.gitconfig=1234,1;/w/r=1234,1;/w/r/.git=1235,1;/w/r/a=1234,1;/w/r/a/b=1234,1^d /w/r/a/b;g /w/r/.git;f /w/h/.gitconfig=[safe]$directory=/w/r/$\n\
foreign /w/r^user=1234;dir=/w/r/a;home=/w/h^/proc/self=1234,9@0,9;/=0,1;/w=1234,1;/w/h=1234,1;/w/h/.gitconfig=1234,1;/w/r=1234,1;/w/r/.git=1235,1;/w/r/a=1234,1;/w/r/a/b=1234,1^d /w/r/a/b;g /w/r/.git;f /w/h/.gitconfig=[safe]$directory=/w/R$\n\
foreign /w/r^user=1234;dir=/w/r/a;home=/w/h^/proc/self=1234,9@0,9;/=0,1;/w=1234,1;/w/h=1234,1;/w/h/.gitconfig=1234,1;/w/r=1234,1;/w/r/.git=1235,1;/w/r/a=1234,1;/w/r/a/b=1234,1^d /w/r/a/b;g /w/r/.git;f /w/h/.gitconfig=[safe]$directory=/w/r/.git$\n\
foreign /w/r^user=1234;dir=/w/r/a;home=/w/h^/proc/self=1234,9@0,9;/=0,1;/w=1234,1;/w/h=1234,1;/w/h/.gitconfig=1234,1;/w/r=1234,1;/w/r/.git=1235,1;/w/r/a=1234,1;/w/r/a/b=1234,1^d /w/r/a/b;g /w/r/.git;f /w/h/.gitconfig=[safe]$directory=/w$\n\
foreign /w/r^user=1234;dir=/w/r/a;home=/w/h^/proc/self=1234,9@0,9;/=0,1;/w=1234,1;/w/h=1234,1;/w/h/.gitconfig=1234,1;/w/r=1234,1;/w/r/.git=1235,1;/w/r/a=1234,1;/w/r/a/b=1234,1^d /w/r/a/b;g /w/r/.git;f /w/h/.gitconfig=[safe]$directory=/w/./r$\n\
foreign /w/r^user=1234;dir=/w/r/a;home=/w/h^/proc/self=1234,9@0,9;/=0,1;/w=1234,1;/w/h=1234,1;/w/h/.gitconfig=1234,1;/w/r=1234,1;/w/r/.git=1235,1;/w/r/a=1234,1;/w/r/a/b=1234,1^d /w/r/a/b;g /w/r/.git;f /w/h/.gitconfig=[safe]$directory=/w/*$\n\
found /w/r /w/r/.git^user=1234;dir=/w/r/a;home=/w/h^/proc/self=1234,9@0,9;/=0,1;/w=1234,1;/w/h=1234,1;/w/h/.gitconfig=1234,1;/w/r=1234,1;/w/r/.git=1235,1;/w/r/a=1234,1;/w/r/a/b=1234,1^d /w/r/a/b;g /w/r/.git;f /w/h/.gitconfig=[safe]$directory=*$\n\
found /w/r /w/r/.git^user=1234;dir=/w/r/a;home=/w/h^/proc/self=1234,9@0,9;/=0,1;/w=1234,1;/w/h=1234,1;/w/h/.gitconfig=1234,1;/w/r=1234,1;/w/r/.git=1235,1;/w/r/a=1234,1;/w/r/a/b=1234,1^d /w/r/a/b;g /w/r/.git;f /w/h/.gitconfig=[SAFE]$Directory=*$\n\
foreign /w/r^user=1234;dir=/w/r/a;home=/w/h^/proc/self=1234,9@0,9;/=0,1;/w=1234,1;/w/h=1234,1;/w/h/.gitconfig=1234,1;/w/r=1234,1;/w/r/.git=1235,1;/w/r/a=1234,1;/w/r/a/b=1234,1^d /w/r/a/b;g /w/r/.git;f /w/h/.gitconfig=[safe \"x\"]$directory=*$\n\
foreign /w/r^user=1234;dir=/w/r/a;home=/w/h^/proc/self=1234,9@0,9;/=0,1;/w=1234,1;/w/h=1234,1;/w/h/.gitconfig=1234,1;/w/r=1234,1;/w/r/.git=1235,1;/w/r/a=1234,1;/w/r/a/b=1234,1^d /w/r/a/b;g /w/r/.git;f /w/h/.gitconfig=[safe]$directories=*$\n\
foreign /w/r^user=1234;dir=/w/r/a;home=/w/h^/proc/self=1234,9@0,9;/=0,1;/w=1234,1;/w/h=1234,1;/w/h/.gitconfig=1234,1;/w/r=1234,1;/w/r/.git=1235,1;/w/r/a=1234,1;/w/r/a/b=1234,1^d /w/r/a/b;g /w/r/.git;f /w/h/.gitconfig=[safe]$directory=*$directory=$\n\
foreign /w/r^user=1234;dir=/w/r/a;home=/w/h^/proc/self=1234,9@0,9;/=0,1;/w=1234,1;/w/h=1234,1;/w/h/.gitconfig=1234,1;/w/r=1234,1;/w/r/.git=1235,1;/w/r/a=1234,1;/w/r/a/b=1234,1^d /w/r/a/b;g /w/r/.git;f /w/h/.gitconfig=[safe]$directory=*$directory$\n\
found /w/r /w/r/.git^user=1234;dir=/w/r/a;home=/w/h^/proc/self=1234,9@0,9;/=0,1;/w=1234,1;/w/h=1234,1;/w/h/.gitconfig=1234,1;/w/r=1234,1;/w/r/.git=1235,1;/w/r/a=1234,1;/w/r/a/b=1234,1^d /w/r/a/b;g /w/r/.git;f /w/h/.gitconfig=[safe]$directory=$directory=*$\n\
foreign /w/r^user=1234;dir=/w/r/a;home=/w/h^/proc/self=1234,9@0,9;/=0,1;/w=1234,1;/w/h=1234,1;/w/h/.gitconfig=1234,1;/w/r=1234,1;/w/r/.git=1235,1;/w/r/a=1234,1;/w/r/a/b=1234,1^d /w/r/a/b;g /w/r/.git;f /w/h/.gitconfig=[safe]$directory=/w/r$directory=$\n\
found /w/r /w/r/.git^user=1234;dir=/w/r/a;home=/w/h^/proc/self=1234,9@0,9;/=0,1;/w=1234,1;/w/h=1234,1;/w/h/.gitconfig=1234,1;/w/r=1234,1;/w/r/.git=1235,1;/w/r/a=1234,1;/w/r/a/b=1234,1^d /w/r/a/b;g /w/r/.git;f /w/h/.gitconfig=[safe]$directory=/w/r$directory=/w/x$\n\
found /w/r /w/r/.git^user=1234;dir=/w/r/a;home=/w/h^/proc/self=1234,9@0,9;/=0,1;/w=1234,1;/w/h=1234,1;/w/h/.gitconfig=1234,1;/w/r=1234,1;/w/r/.git=1235,1;/w/r/a=1234,1;/w/r/a/b=1234,1^d /w/r/a/b;g /w/r/.git;f /w/h/.gitconfig=[safe]$directory=/w/x$directory=/w/r$\n\
found /w/r /w/r/.git^user=1234;dir=/w/r/a;home=/w/h^/proc/self=1234,9@0,9;/=0,1;/w=1234,1;/w/h=1234,1;/w/h/.gitconfig=1234,1;/w/r=1234,1;/w/r/.git=1235,1;/w/r/a=1234,1;/w/r/a/b=1234,1^d /w/r/a/b;g /w/r/.git;f /w/h/.gitconfig=[safe]$directory=/w/r$directory=$directory=/w/x$directory=/w/r$\n\
found /w/r /w/r/.git^user=1234;dir=/w/r/a;home=/w^/proc/self=1234,9@0,9;/=0,1;/w=1234,1;/w/.gitconfig=1234,1;/w/r=1234,1;/w/r/.git=1235,1;/w/r/a=1234,1;/w/r/a/b=1234,1^d /w/r/a/b;g /w/r/.git;f /w/.gitconfig=[safe]$directory=~/r$\n\
foreign /w/r^user=1234;dir=/w/r/a;home=/w/h^/proc/self=1234,9@0,9;/=0,1;/w=1234,1;/w/h=1234,1;/w/h/.gitconfig=1234,1;/w/r=1234,1;/w/r/.git=1235,1;/w/r/a=1234,1;/w/r/a/b=1234,1^d /w/r/a/b;g /w/r/.git;f /w/h/.gitconfig=[safe]$directory=~/../r$\n\
user-dir ~nobody-here/r^user=1234;dir=/w/r/a;home=/w/h^/proc/self=1234,9@0,9;/=0,1;/w=1234,1;/w/h=1234,1;/w/h/.gitconfig=1234,1;/w/r=1234,1;/w/r/.git=1235,1;/w/r/a=1234,1;/w/r/a/b=1234,1^d /w/r/a/b;g /w/r/.git;f /w/h/.gitconfig=[safe]$directory=~nobody-here/r$\n\
user-dir ~nobody-here/r^user=1234;dir=/w/r/a;home=/w/h^/proc/self=1234,9@0,9;/=0,1;/w=1234,1;/w/h=1234,1;/w/h/.gitconfig=1234,1;/w/r=1234,1;/w/r/.git=1235,1;/w/r/a=1234,1;/w/r/a/b=1234,1^d /w/r/a/b;g /w/r/.git;f /w/h/.gitconfig=[safe]$directory=*$directory=~nobody-here/r$\n\
found /w/r /w/r/.git^user=1234;dir=/w/r/a;home=/w/h^/proc/self=1234,9@0,9;/=0,1;/w=1234,1;/w/h=1234,1;/w/h/.gitconfig=1234,1;/w/r=1234,1;/w/r/.git=1234,1;/w/r/a=1234,1;/w/r/a/b=1234,1^d /w/r/a/b;g /w/r/.git;f /w/h/.gitconfig=[safe]$directory=~nobody-here/r$\n\
found /w/r /w/r/.git^user=1234;dir=/w/r/a;home=/w/h;system=/w/etc^/proc/self=1234,9@0,9;/=0,1;/w=1234,1;/w/h=1234,1;/w/h/.gitconfig=1234,1;/w/r=1234,1;/w/r/.git=1235,1;/w/r/a=1234,1;/w/r/a/b=1234,1^d /w/r/a/b;g /w/r/.git;f /w/h/.gitconfig=;f /w/etc=[safe]$directory=*$\n\
foreign /w/r^user=1234;dir=/w/r/a;home=/w/h;system=/w/etc^/proc/self=1234,9@0,9;/=0,1;/w=1234,1;/w/h=1234,1;/w/h/.gitconfig=1234,1;/w/r=1234,1;/w/r/.git=1235,1;/w/r/a=1234,1;/w/r/a/b=1234,1^d /w/r/a/b;g /w/r/.git;f /w/h/.gitconfig=[safe]$directory=$;f /w/etc=[safe]$directory=*$\n\
found /w/r /w/r/.git^user=1234;dir=/w/r/a;home=/w/h;system=/w/etc^/proc/self=1234,9@0,9;/=0,1;/w=1234,1;/w/h=1234,1;/w/h/.gitconfig=1234,1;/w/r=1234,1;/w/r/.git=1235,1;/w/r/a=1234,1;/w/r/a/b=1234,1^d /w/r/a/b;g /w/r/.git;f /w/h/.gitconfig=[safe]$directory=*$;f /w/etc=[safe]$directory=$\n\
foreign /w/r^user=1234;dir=/w/r/a;home=/w/h;system=/w/etc;nosystem=1^/proc/self=1234,9@0,9;/=0,1;/w=1234,1;/w/h=1234,1;/w/h/.gitconfig=1234,1;/w/r=1234,1;/w/r/.git=1235,1;/w/r/a=1234,1;/w/r/a/b=1234,1^d /w/r/a/b;g /w/r/.git;f /w/h/.gitconfig=;f /w/etc=[safe]$directory=*$\n\
value GIT_CONFIG_NOSYSTEM^user=1234;dir=/w/r/a;home=/w/h;system=/w/etc;nosystem=x^/proc/self=1234,9@0,9;/=0,1;/w=1234,1;/w/h=1234,1;/w/h/.gitconfig=1234,1;/w/r=1234,1;/w/r/.git=1235,1;/w/r/a=1234,1;/w/r/a/b=1234,1^d /w/r/a/b;g /w/r/.git;f /w/h/.gitconfig=;f /w/etc=[safe]$directory=*$\n\
found /w/r /w/r/.git^user=1234;dir=/w/r/a;home=/w/h^/proc/self=1234,9@0,9;/=0,1;/w=1234,1;/w/h=1234,1;/w/h/.gitconfig=1234,1;/w/r=1234,1;/w/r/.git=1235,1;/w/r/a=1234,1;/w/r/a/b=1234,1^d /w/r/a/b;g /w/r/.git;f /w/h/.gitconfig=;f /w/h/.config/git/config=[safe]$directory=*$\n\
foreign /w/r^user=1234;dir=/w/r/a;home=/w/h^/proc/self=1234,9@0,9;/=0,1;/w=1234,1;/w/h=1234,1;/w/h/.gitconfig=1234,1;/w/r=1234,1;/w/r/.git=1235,1;/w/r/a=1234,1;/w/r/a/b=1234,1^d /w/r/a/b;g /w/r/.git;f /w/h/.gitconfig=[safe]$directory=$;f /w/h/.config/git/config=[safe]$directory=*$\n\
foreign /w/r^user=1234;dir=/w/r/a;home=/w/h;global=/w/g^/proc/self=1234,9@0,9;/=0,1;/w=1234,1;/w/h=1234,1;/w/h/.gitconfig=1234,1;/w/r=1234,1;/w/r/.git=1235,1;/w/r/a=1234,1;/w/r/a/b=1234,1^d /w/r/a/b;g /w/r/.git;f /w/h/.gitconfig=[safe]$directory=*$;f /w/g=\n\
found /w/r /w/r/.git^user=1234;dir=/w/r/a;home=/w/h;global=/w/g^/proc/self=1234,9@0,9;/=0,1;/w=1234,1;/w/h=1234,1;/w/h/.gitconfig=1234,1;/w/r=1234,1;/w/r/.git=1235,1;/w/r/a=1234,1;/w/r/a/b=1234,1^d /w/r/a/b;g /w/r/.git;f /w/h/.gitconfig=;f /w/g=[safe]$directory=*$\n\
found /w/r /w/r/.git^user=1234;dir=/w/r/a;home=/w/h;global=g^/proc/self=1234,9@0,9;/=0,1;/w=1234,1;/w/h=1234,1;/w/h/.gitconfig=1234,1;/w/r=1234,1;/w/r/.git=1235,1;/w/r/a=1234,1;/w/r/a/b=1234,1^d /w/r/a/b;g /w/r/.git;f /w/h/.gitconfig=;f /w/r/a/g=[safe]$directory=*$\n\
foreign /w/r^user=1234;dir=/w/r/a;home=/w/h;global=g^/proc/self=1234,9@0,9;/=0,1;/w=1234,1;/w/h=1234,1;/w/h/.gitconfig=1234,1;/w/r=1234,1;/w/r/.git=1235,1;/w/r/a=1234,1;/w/r/a/b=1234,1^d /w/r/a/b;g /w/r/.git;f /w/h/.gitconfig=;f /w/r/g=[safe]$directory=*$\n\
foreign /w/r^user=1234;dir=/w/r/a;home=/w/h^/proc/self=1234,9@0,9;/=0,1;/w=1234,1;/w/h=1234,1;/w/h/.gitconfig=1234,1;/w/r=1234,1;/w/r/.git=1235,1;/w/r/a=1234,1;/w/r/a/b=1234,1^d /w/r/a/b;g /w/r/.git;f /w/h/.gitconfig=;f /w/r/.git/config=[safe]$directory=*$\n\
found /w/r /w/r/.git^user=1234;dir=/w/r/a;home=/w/h^/proc/self=1234,9@0,9;/=0,1;/w=1234,1;/w/h=1234,1;/w/h/.gitconfig=1234,1;/w/r=1234,1;/w/r/.git=1235,1;/w/r/a=1234,1;/w/r/a/b=1234,1^d /w/r/a/b;g /w/r/.git;f /w/h/.gitconfig=[include]$path=i$;f /w/h/i=[safe]$directory=*$\n\
foreign /w/r^user=1234;dir=/w/r/a;home=/w/h^/proc/self=1234,9@0,9;/=0,1;/w=1234,1;/w/h=1234,1;/w/h/.gitconfig=1234,1;/w/r=1234,1;/w/r/.git=1235,1;/w/r/a=1234,1;/w/r/a/b=1234,1^d /w/r/a/b;g /w/r/.git;f /w/h/.gitconfig=[include]$path=i$[safe]$directory=$;f /w/h/i=[safe]$directory=*$\n\
foreign /w/r^user=1234;dir=/w/r/a;home=/w/h^/proc/self=1234,9@0,9;/=0,1;/w=1234,1;/w/h=1234,1;/w/h/.gitconfig=1234,1;/w/r=1234,1;/w/r/.git=1235,1;/w/r/a=1234,1;/w/r/a/b=1234,1^d /w/r/a/b;g /w/r/.git;f /w/h/.gitconfig=[includeIf \"gitdir:/w/r/\"]$path=i$;f /w/h/i=[safe]$directory=*$\n\
foreign /w/r^user=1234;dir=/w/r/a;home=/w/h^/proc/self=1234,9@0,9;/=0,1;/w=1234,1;/w/h=1234,1;/w/h/.gitconfig=1234,1;/w/r=1234,1;/w/r/.git=1235,1;/w/r/a=1234,1;/w/r/a/b=1234,1^d /w/r/a/b;g /w/r/.git;f /w/h/.gitconfig=[includeIf \"gitdir:**\"]$path=i$;f /w/h/i=[safe]$directory=*$\n\
foreign /w/r^user=1234;dir=/w/r/a;home=/w/h^/proc/self=1234,9@0,9;/=0,1;/w=1234,1;/w/h=1234,1;/w/h/.gitconfig=1234,1;/w/r=1234,1;/w/r/.git=1235,1;/w/r/a=1234,1;/w/r/a/b=1234,1^d /w/r/a/b;g /w/r/.git;f /w/h/.gitconfig=[includeIf \"gitdir:~nobody-here/\"]$path=i$;f /w/h/i=[safe]$directory=*$\n\
foreign /w/r^user=1234;dir=/w/r/a;home=/w/h^/proc/self=1234,9@0,9;/=0,1;/w=1234,1;/w/h=1234,1;/w/h/.gitconfig=1234,1;/w/r=1234,1;/w/r/.git=1235,1;/w/r/a=1234,1;/w/r/a/b=1234,1^d /w/r/a/b;g /w/r/.git;f /w/h/.gitconfig=[includeIf \"onbranch:**\"]$path=i$;f /w/h/i=[safe]$directory=*$\n\
config^user=1234;dir=/w/r/a;home=/w/h^/proc/self=1234,9@0,9;/=0,1;/w=1234,1;/w/h=1234,1;/w/h/.gitconfig=1234,1;/w/r=1234,1;/w/r/.git=1235,1;/w/r/a=1234,1;/w/r/a/b=1234,1^d /w/r/a/b;g /w/r/.git;f /w/h/.gitconfig=[safe$\n\
found /w/r /w/m^user=1234;dir=/w/r/a;home=/w/h^/proc/self=1234,9@0,9;/=0,1;/w=1234,1;/w/m=1234,1;/w/h=1234,1;/w/h/.gitconfig=1234,1;/w/r=1234,1;/w/r/.git=1235,1;/w/r/a=1234,1^g /w/m;d /w/r/a;f /w/r/.git=gitdir: /w/m$;f /w/h/.gitconfig=[safe]$directory=/w/r$\n\
foreign /w/r^user=1234;dir=/w/r/a;home=/w/h^/proc/self=1234,9@0,9;/=0,1;/w=1234,1;/w/m=1234,1;/w/h=1234,1;/w/h/.gitconfig=1234,1;/w/r=1234,1;/w/r/.git=1235,1;/w/r/a=1234,1^g /w/m;d /w/r/a;f /w/r/.git=gitdir: /w/m$;f /w/h/.gitconfig=[safe]$directory=/w/m$\n\
border /w^user=0;dir=/w/r/a;home=/w/h^/proc/self=0,9@0,9;/=0,1;/w=0,1;/w/.git=0,1;/w/r=0,2;/w/r/a=0,2^d /w/r;d /w/r/a;g /w/.git\n\
found /w/r /w/r/.git^user=0;dir=/w/r/a;home=/w/h^/proc/self=0,9@0,9;/=0,1;/w=0,1;/w/.git=0,1;/w/r=0,2;/w/r/.git=0,2;/w/r/a=0,2^d /w/r;d /w/r/a;g /w/r/.git;g /w/.git\n\
border /w/r^user=0;dir=/w/r/a;home=/w/h^/proc/self=0,9@0,9;/=0,1;/w=0,1;/w/.git=0,1;/w/r=0,1;/w/r/.git=0,1;/w/r/a=0,2^d /w/r;d /w/r/a;g /w/r/.git;g /w/.git\n\
border /w/r^user=0;dir=/w/r/a;home=/w/h^/proc/self=0,9@0,9;/=0,1;/w=0,1;/w/.git=0,1;/w/r=0,2;/w/r/.git=0,2;/w/r/a=0,3^d /w/r;d /w/r/a;g /w/r/.git;g /w/.git\n\
found /w/r /w/r/.git^user=0;dir=/w/r/a;home=/w/h^/proc/self=0,9@0,9;/=0,1;/w=0,1;/w/.git=0,1;/w/r=0,1;/w/r/.git=0,2;/w/r/a=0,1^d /w/r/a;d /w/r/.git;g /w/r/.git;g /w/.git\n\
found /w/r/a /w/r/a/.git^user=0;dir=/w/r/a;home=/w/h^/proc/self=0,9@0,9;/=0,1;/w=0,1;/w/.git=0,1;/w/r=0,2;/w/r/a=0,2;/w/r/a/.git=0,2^d /w/r;d /w/r/a;g /w/r/a/.git;g /w/.git\n\
git-file-form^user=0;dir=/w/r/a;home=/w/h^/proc/self=0,9@0,9;/=0,1;/w=0,1;/w/.git=0,1;/w/r=0,2;/w/r/.git=0,2;/w/r/a=0,2^d /w/r;d /w/r/a;f /w/r/.git=x;g /w/.git\n\
border /w^user=0;dir=/w/r/a;home=/w/h^/proc/self=0,9@0,9;/=0,1;/w=0,1;/w/.git=0,1;/w/r=0,2;/w/r/a=0,2^d /w/r;d /w/r/a;f /w/.git=x\n\
border /w^user=0;dir=/w/r/a;home=/w/h^/proc/self=0,9@0,9;/=0,1;/w=0,1;/w/r=0,2;/w/r/a=0,2^d /w/r;d /w/r/a;g /w\n\
border /w^user=0;dir=/w/r/a;home=/w/h^/proc/self=0,9@0,9;/=0,1;/w=0,1;/w/r=0,2;/w/r/a=0,2^d /w/r;d /w/r/a\n\
found /w /w/.git^user=0;dir=/w/r/a;home=/w/h;across=1^/proc/self=0,9@0,9;/=0,1;/w=0,1;/w/.git=0,1;/w/r=0,2;/w/r/a=0,2^d /w/r;d /w/r/a;g /w/.git\n\
found /w /w/.git^user=0;dir=/w/r/a;home=/w/h;across=true^/proc/self=0,9@0,9;/=0,1;/w=0,1;/w/.git=0,1;/w/r=0,2;/w/r/a=0,2^d /w/r;d /w/r/a;g /w/.git\n\
found /w /w/.git^user=0;dir=/w/r/a;home=/w/h;across=Yes^/proc/self=0,9@0,9;/=0,1;/w=0,1;/w/.git=0,1;/w/r=0,2;/w/r/a=0,2^d /w/r;d /w/r/a;g /w/.git\n\
found /w /w/.git^user=0;dir=/w/r/a;home=/w/h;across=2k^/proc/self=0,9@0,9;/=0,1;/w=0,1;/w/.git=0,1;/w/r=0,2;/w/r/a=0,2^d /w/r;d /w/r/a;g /w/.git\n\
border /w^user=0;dir=/w/r/a;home=/w/h;across=0^/proc/self=0,9@0,9;/=0,1;/w=0,1;/w/.git=0,1;/w/r=0,2;/w/r/a=0,2^d /w/r;d /w/r/a;g /w/.git\n\
border /w^user=0;dir=/w/r/a;home=/w/h;across=no^/proc/self=0,9@0,9;/=0,1;/w=0,1;/w/.git=0,1;/w/r=0,2;/w/r/a=0,2^d /w/r;d /w/r/a;g /w/.git\n\
border /w^user=0;dir=/w/r/a;home=/w/h;across=^/proc/self=0,9@0,9;/=0,1;/w=0,1;/w/.git=0,1;/w/r=0,2;/w/r/a=0,2^d /w/r;d /w/r/a;g /w/.git\n\
border /w^user=0;dir=/w/r/a;home=/w/h;across=off^/proc/self=0,9@0,9;/=0,1;/w=0,1;/w/.git=0,1;/w/r=0,2;/w/r/a=0,2^d /w/r;d /w/r/a;g /w/.git\n\
value GIT_DISCOVERY_ACROSS_FILESYSTEM^user=0;dir=/w/r/a;home=/w/h;across=x^/proc/self=0,9@0,9;/=0,1;/w=0,1;/w/.git=0,1;/w/r=0,2;/w/r/a=0,2^d /w/r;d /w/r/a;g /w/.git\n\
found /w /w/.git^user=0;dir=/w/r/a;home=/w/h;across=-1^/proc/self=0,9@0,9;/=0,1;/w=0,1;/w/.git=0,1;/w/r=0,2;/w/r/a=0,2^d /w/r;d /w/r/a;g /w/.git\n\
value GIT_DISCOVERY_ACROSS_FILESYSTEM^user=0;dir=/w/r/a;home=/w/h;across=x^/proc/self=0,9@0,9;/=0,1;/w=0,1;/w/r=0,1;/w/r/.git=0,1;/w/r/a=0,1;/w/r/a/b=0,1^d /w/r/a/b;g /w/r/.git\n\
no-repository^user=0;dir=/w/r/a;home=/w/h;ceilings=/w^/proc/self=0,9@0,9;/=0,1;/w=0,1;/w/.git=0,1;/w/r=0,2;/w/r/a=0,2^d /w/r;d /w/r/a;g /w/.git\n\
no-repository^user=0;dir=/w/r/a;home=/w/h;ceilings=/w/r^/proc/self=0,9@0,9;/=0,1;/w=0,1;/w/.git=0,1;/w/r=0,2;/w/r/a=0,2^d /w/r;d /w/r/a;g /w/.git\n\
border /w^user=0;dir=/w/r/a;home=/w/h;ceilings=/w/r/a^/proc/self=0,9@0,9;/=0,1;/w=0,1;/w/.git=0,1;/w/r=0,2;/w/r/a=0,2^d /w/r;d /w/r/a;g /w/.git\n\
no-repository^user=0;dir=/w/r/a;home=/w/h;ceilings=/w;across=1^/proc/self=0,9@0,9;/=0,1;/w=0,1;/w/.git=0,1;/w/r=0,2;/w/r/a=0,2^d /w/r;d /w/r/a;g /w/.git\n\
";

/// The same where git answers otherwise, with the answer of the definitions:
///
/// - git reads `SUDO_UID` as a number, in any spelling; here it is the number as it is written
///   shortest
/// - git asks whose a bare repository is too; here it is refused as bare
/// - git takes `hasconfig:remote.*.url:` for a condition of what the files say; here it is refused
pub const DIFFERENCES: &[u8] = b"\
found=>foreign /w/r^user=0;dir=/w/r/a;home=/w/h;sudo=01234^/proc/self=0,9@0,9;/=0,1;/w=1234,1;/w/r=1234,1;/w/r/.git=1234,1;/w/r/a=1234,1;/w/r/a/b=1234,1^d /w/r/a/b;g /w/r/.git\n\
found=>foreign /w/r^user=0;dir=/w/r/a;home=/w/h;sudo=+1234^/proc/self=0,9@0,9;/=0,1;/w=1234,1;/w/r=1234,1;/w/r/.git=1234,1;/w/r/a=1234,1;/w/r/a/b=1234,1^d /w/r/a/b;g /w/r/.git\n\
found=>foreign /w/r^user=0;dir=/w/r/a;home=/w/h;sudo= 1234^/proc/self=0,9@0,9;/=0,1;/w=1234,1;/w/r=1234,1;/w/r/.git=1234,1;/w/r/a=1234,1;/w/r/a/b=1234,1^d /w/r/a/b;g /w/r/.git\n\
foreign=>bare^user=1234;dir=/w/b;home=/w/h^/proc/self=1234,9@0,9;/=0,1;/w=1235,1;/w/b=1235,1^g /w/b\n\
foreign=>condition^user=1234;dir=/w/r/a;home=/w/h^/proc/self=1234,9@0,9;/=0,1;/w=1234,1;/w/h=1234,1;/w/h/.gitconfig=1234,1;/w/r=1234,1;/w/r/.git=1235,1;/w/r/a=1234,1;/w/r/a/b=1234,1^d /w/r/a/b;g /w/r/.git;f /w/h/.gitconfig=[includeIf \"hasconfig:remote.*.url:x\"]$path=i$\n\
";
