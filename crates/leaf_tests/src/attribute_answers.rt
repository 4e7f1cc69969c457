//! What git answers of attributes and paths; made by `scripts/ask-git-attributes` with git version 2.39.5.
//!
//! A row has the attributes with their states, in the table of differences those of the
//! definitions; then the path, and what four files say, with `|` in the place of each LF: the
//! user's, that of the root, the information file, and that of the directory `d`.

/// Where case counts.
pub const ANSWERS: &[u8] = b"\
a=set;f;;f a;;\n\
;g;;f a;;\n\
a=set;x/f;;f a;;\n\
a=unset;f;;f -a;;\n\
;f;;f !a;;\n\
a=v;f;;f a=v;;\n\
a=;f;;f a=;;\n\
a=v=w;f;;f a=v=w;;\n\
a=-v,b=!v,c=[attr]x;f;;f a=-v b=!v c=[attr]x;;\n\
.a=set,9=set,A9=set,_=set,a-b=set,a.b=set,a_b=set;f;;f a-b a.b a_b A9 9 .a _;;\n\
a=set,b=set,c=set;f;;f a\tb  \t c;;\n\
a=set;f;;f\ta;;\n\
a=set;f;;  f a  ;;\n\
a=set;f;;\t f a\t;;\n\
;f;;f;;\n\
a=unset;f;;f a -a;;\n\
a=set;f;;f -a a;;\n\
;f;;f a !a;;\n\
a=set;f;;f !a a;;\n\
a=2;f;;f a=1 a=2;;\n\
a=unset;f;;f a|f -a;;\n\
a=unset,b=set;f;;f a b|* -a;;\n\
a=unset;g;;f a b|* -a;;\n\
a=set,b=set;f;;* -a|f a b;;\n\
a=unset;g;;* -a|f a b;;\n\
diff=c;x.c;;*.c text diff=c|x.c !text;;\n\
diff=c,text=set;y.c;;*.c text diff=c|x.c !text;;\n\
b=set;f;;# f a|f b;;\n\
;#;;# f a|f b;;\n\
;f;;  # f a;;\n\
;#;;  # f a;;\n\
a=set;f;;||  |\t|f a;;\n\
b=set;f;;!f a|f b;;\n\
;!f;;!f a|f b;;\n\
a=set;!f;;\\!f a;;\n\
;f;;\\!f a;;\n\
a=set;#f;;\\#f a;;\n\
a=set;f;;f a\r|g b\r|;;\n\
b=set;g;;f a\r|g b\r|;;\n\
a=v;f;;f a=v\r|;;\n\
a=set,b=set;f;;\xef\xbb\xbff a|f b;;\n\
a=set;x.c;;*.c a;;\n\
a=set;d/x.c;;*.c a;;\n\
;x.h;;*.c a;;\n\
a=set;x;;/x a;;\n\
;d/x;;/x a;;\n\
a=set;d/x;;d/x a;;\n\
;x;;d/x a;;\n\
;e/d/x;;d/x a;;\n\
a=set;d/x;;d/** a;;\n\
a=set;d/e/x;;d/** a;;\n\
;d;;d/** a;;\n\
;x;;d/** a;;\n\
a=set;x;;**/x a;;\n\
a=set;d/x;;**/x a;;\n\
a=set;d/e/x;;**/x a;;\n\
a=set;a;;[ab] a;;\n\
;c;;[ab] a;;\n\
a=set;d/;;d/ a;;\n\
;d/x;;d/ a;;\n\
a=set;e/d/;;d/ a;;\n\
a=set;abc;;a?c a;;\n\
;ac;;a?c a;;\n\
;x;;/ a|// b;;\n\
;d/;;/ a|// b;;\n\
x=set;a b;;\"a b\" x;;\n\
;a;;\"a b\" x;;\n\
;b;;\"a b\" x;;\n\
x=set;a\"b;;\"a\\\"b\" x;;\n\
x=set;a*b;;\"a\\\\*b\" x;;\n\
;axb;;\"a\\\\*b\" x;;\n\
x=set;f;;\"f\"x;;\n\
;fx;;\"f\"x;;\n\
;a b;;\"a b\";;\n\
x=set;y.c;;\"*.c\" x;;\n\
;f;;\"!f\" x;;\n\
;!f;;\"!f\" x;;\n\
x=set;#f;;\"#f\" x;;\n\
;f;;\"\" x;;\n\
x=set;a\"b;;a\"b x;;\n\
x=set;a b;;  \"a b\" x;;\n\
binary=set,diff=unset,merge=unset,text=unset;x.bin;;*.bin binary;;\n\
;x.c;;*.bin binary;;\n\
binary=unset;x.bin;;*.bin -binary;;\n\
;x.bin;;*.bin !binary;;\n\
binary=x;x.bin;;*.bin binary=x;;\n\
binary=set,diff=unset,merge=unset,text=set;x.bin;;*.bin binary text;;\n\
binary=set,diff=unset,merge=unset,text=unset;x.bin;;*.bin text binary;;\n\
binary=set,diff=unset,merge=unset,text=unset;x.bin;;*.bin text|*.bin binary;;\n\
binary=set,diff=unset,merge=unset,text=set;x.bin;;*.bin binary|*.bin text;;\n\
a=set,b=unset,c=1,m=set;f;;[attr]m a -b c=1|f m;;\n\
a=set,m=set;f;;f m|[attr]m a;;\n\
b=set,m=set;f;;[attr]m a|[attr]m b|f m;;\n\
a=unset,m=set;f;;[attr]m a|f m -a;;\n\
a=set,m=set;f;;[attr]m a|f -a m;;\n\
a=unset,m=set;f;;[attr]m a -a|f m;;\n\
a=set,m=set;f;;[attr]m -a a|f m;;\n\
a=set,m=set;f;;[attr]m a !b|f b m;;\n\
m=set;f;;[attr]m|f m;;\n\
a=set,binary=set;f;;[attr]binary a|f binary;;\n\
binary=set,diff=unset,m=set,merge=unset,text=unset,x=set;f;;[attr]m binary x|f m;;\n\
a=set,m=set,n=set;f;;[attr]m n|[attr]n m a|f m;;\n\
a=set,m=set,n=set;f;;[attr]m n|[attr]n m a|f n;;\n\
a=set,m=set;f;;[attr]m m a|f m;;\n\
a=set,m=set;f;;[attr]m -m a|f m;;\n\
a=2,m=set,n=set,o=set;f;;[attr]m n o|[attr]n a=1|[attr]o a=2|f m;;\n\
a=set,b=set,m=set,n=set,o=set;f;;[attr]m -n o|[attr]n a|[attr]o n b|f m;;\n\
m=set,n=unset;f;;[attr]m n -n|[attr]n a|f m;;\n\
a=set,m=set;f;;  [attr]m a|f m;;\n\
m=unset;f;;[attr]-m a|f -m;;\n\
m=set;f;;[attr]m/n a|f m;;\n\
a=set,m=set;f;;\"[attr]m\" a|f m;;\n\
a=set;t;;[attr] a;;\n\
;x;;[attr] a;;\n\
a=set,m=set;f;;[attr]m\ta|f m;;\n\
;f;;f -|f !|f =v|f =;;\n\
;f;;f --a|f -!a|f !-a;;\n\
a=r,b=u,c=r;f;f a=u b=u;f a=r c=r;;\n\
a=r,b=u,c=r;d/f;f a=u b=u;f a=r c=r;;\n\
a=r,b=r;f;;f a=r b=r;;f a=d c=d\n\
a=d,b=r,c=d;d/f;;f a=r b=r;;f a=d c=d\n\
a=i,b=r,c=i;f;;f a=r b=r;f a=i c=i;\n\
a=i,b=r,c=i;d/f;;f a=r b=r;f a=i c=i;\n\
a=i;f;f a=u b=u;;f a=i !b;\n\
b=set;d/f;;/f a;;/f b\n\
;d/e/f;;/f a;;/f b\n\
diff=c,text=unset;d/x.c;;*.c text diff=c;;x.c -text\n\
;d/x.c;;*.c text;;x.c !text\n\
a=u,m=set;d/f;[attr]m a=u|f m;;;\n\
a=u,m=set;f;[attr]m a=u|f m;;;\n\
a=r,m=set;d/f;[attr]m a=u|f m;[attr]m a=r;;\n\
a=r,m=set;f;[attr]m a=u|f m;[attr]m a=r;;\n\
c=i,m=set;d/f;[attr]m a=u;[attr]m b=r;[attr]m c=i|f m;\n\
c=i,m=set;f;[attr]m a=u;[attr]m b=r;[attr]m c=i|f m;\n\
a=set,m=set;d/f;;[attr]m a|f m;;[attr]m b\n\
a=set,m=set;d/f;;[attr]m a;;f m\n\
a=set,m=set;d/f;;[attr]m a|d/f -m;;f m\n\
m=unset;d/f;;[attr]m a|d/f m;;f -m\n\
binary=set,diff=unset,merge=unset,text=set;d/f;;f binary;;f text\n\
binary=set,diff=unset,merge=unset,text=unset;d/f;;f text;;f binary\n\
a=set;d/x;;;;* a\n\
;dx;;;;* a\n\
;e/x;;;;* a\n\
";

/// Where case does not count.
pub const FOLDED: &[u8] = b"\
a=set;a;;A a;;\n\
a=set;A;;A a;;\n\
;b;;A a;;\n\
a=set;x.c;;*.C a;;\n\
A=set,a=X;F;;f A a=X;;\n\
M=set,a=set,m=set;f;;[attr]M a|F M m;;\n\
";

/// What the definitions say where git answers otherwise:
///
/// - git puts the information file above those of directories; here it is above that of the root
///   alone
/// - git skips a whole line where one word says nothing of a name; here that word alone
/// - git drops the value of `-a=v` and `!a=v`; here such a word says nothing
/// - git knows all escapes of C between quotes; here a line with another than `\"` and `\\` says
///   nothing
/// - git reads a pattern as it stands where its quote is not closed, or it has an escape that C has
///   not; here the line says nothing
/// - git drops a CR at the end of a last line without LF; here a CR is dropped only before an LF
/// - git takes a CR between words as a blank; here it is a byte like any other
/// - git skips lines of 2048 bytes and more; here they are like any other
pub const DIFFERENCES: &[u8] = b"\
a=d;d/f;;;f a=i;f a=d\n\
a=set;f;;f a b/c;;\n\
;f;;f -a=v|f !b=v;;\n\
;a\tb;;\"a\\tb\" x;;\n\
;\"f;;\"f x|\"g\\*\" x;;\n\
;\"g*\";;\"f x|\"g\\*\" x;;\n\
a=v\r;f;;f a=v\r;;\n\
b=set;f;;f a\r b;;\n\
a=vvvvvvvvvvvvvvvvvvvvvvvvvvvvvvvvvvvvvvvvvvvvvvvvvvvvvvvvvvvvvvvvvvvvvvvvvvvvvvvvvvvvvvvvvvvvvvvvvvvvvvvvvvvvvvvvvvvvvvvvvvvvvvvvvvvvvvvvvvvvvvvvvvvvvvvvvvvvvvvvvvvvvvvvvvvvvvvvvvvvvvvvvvvvvvvvvvvvvvvvvvvvvvvvvvvvvvvvvvvvvvvvvvvvvvvvvvvvvvvvvvvvvvvvvvvvvvvvvvvvvvvvvvvvvvvvvvvvvvvvvvvvvvvvvvvvvvvvvvvvvvvvvvvvvvvvvvvvvvvvvvvvvvvvvvvvvvvvvvvvvvvvvvvvvvvvvvvvvvvvvvvvvvvvvvvvvvvvvvvvvvvvvvvvvvvvvvvvvvvvvvvvvvvvvvvvvvvvvvvvvvvvvvvvvvvvvvvvvvvvvvvvvvvvvvvvvvvvvvvvvvvvvvvvvvvvvvvvvvvvvvvvvvvvvvvvvvvvvvvvvvvvvvvvvvvvvvvvvvvvvvvvvvvvvvvvvvvvvvvvvvvvvvvvvvvvvvvvvvvvvvvvvvvvvvvvvvvvvvvvvvvvvvvvvvvvvvvvvvvvvvvvvvvvvvvvvvvvvvvvvvvvvvvvvvvvvvvvvvvvvvvvvvvvvvvvvvvvvvvvvvvvvvvvvvvvvvvvvvvvvvvvvvvvvvvvvvvvvvvvvvvvvvvvvvvvvvvvvvvvvvvvvvvvvvvvvvvvvvvvvvvvvvvvvvvvvvvvvvvvvvvvvvvvvvvvvvvvvvvvvvvvvvvvvvvvvvvvvvvvvvvvvvvvvvvvvvvvvvvvvvvvvvvvvvvvvvvvvvvvvvvvvvvvvvvvvvvvvvvvvvvvvvvvvvvvvvvvvvvvvvvvvvvvvvvvvvvvvvvvvvvvvvvvvvvvvvvvvvvvvvvvvvvvvvvvvvvvvvvvvvvvvvvvvvvvvvvvvvvvvvvvvvvvvvvvvvvvvvvvvvvvvvvvvvvvvvvvvvvvvvvvvvvvvvvvvvvvvvvvvvvvvvvvvvvvvvvvvvvvvvvvvvvvvvvvvvvvvvvvvvvvvvvvvvvvvvvvvvvvvvvvvvvvvvvvvvvvvvvvvvvvvvvvvvvvvvvvvvvvvvvvvvvvvvvvvvvvvvvvvvvvvvvvvvvvvvvvvvvvvvvvvvvvvvvvvvvvvvvvvvvvvvvvvvvvvvvvvvvvvvvvvvvvvvvvvvvvvvvvvvvvvvvvvvvvvvvvvvvvvvvvvvvvvvvvvvvvvvvvvvvvvvvvvvvvvvvvvvvvvvvvvvvvvvvvvvvvvvvvvvvvvvvvvvvvvvvvvvvvvvvvvvvvvvvvvvvvvvvvvvvvvvvvvvvvvvvvvvvvvvvvvvvvvvvvvvvvvvvvvvvvvvvvvvvvvvvvvvvvvvvvvvvvvvvvvvvvvvvvvvvvvvvvvvvvvvvvvvvvvvvvvvvvvvvvvvvvvvvvvvvvvvvvvvvvvvvvvvvvvvvvvvvvvvvvvvvvvvvvvvvvvvvvvvvvvvvvvvvvvvvvvvvvvvvvvvvvvvvvvvvvvvvvvvvvvvvvvvvvvvvvvvvvvvvvvvvvvvvvvvvvvvvvvvvvvvvvvvvvvvvvvvvvvvvvvvvvvvvvvvvvvvvvvvvvvvvvvvvvvvvvvvvvvvvvvvvvvvvvvvvvvvvvvvvvvvvvvvvvvvvvvvvvvvvvvvvvvvvvvvvvvvvvvvvvvvvvvvvvvvvvvvvvvvvvvvvvvvvvvvvvvvvvvvvvvvvvvvvvvvvvvvvvvvvvvvvvvvvvvvvvvvvvvvvvvvvvvvvvvvvvvvvvvvvvvvvvvvvvvvvvvvvvvvvvvvvvvvvvvvvvvvvvvvvvvvvvvvvvvvvvvvvvvvvvvvvvvvvvvvvvvvvvvvvvvvvvvvvvvvvvvvvvvvvvvvvvvvvvvvvvvvvvvvvvvvvvvvvvvvvvvvvvvvvvvvvvvvvvvvvvvvvvvvvvvvvvvvvvvvvvvvvvvvvvvvvvvvvvvvvvvvvvvvvvvvvvvvvvvvvvvvvvvvvvvvvvvvvvvvvvvvvv;f;;f a=vvvvvvvvvvvvvvvvvvvvvvvvvvvvvvvvvvvvvvvvvvvvvvvvvvvvvvvvvvvvvvvvvvvvvvvvvvvvvvvvvvvvvvvvvvvvvvvvvvvvvvvvvvvvvvvvvvvvvvvvvvvvvvvvvvvvvvvvvvvvvvvvvvvvvvvvvvvvvvvvvvvvvvvvvvvvvvvvvvvvvvvvvvvvvvvvvvvvvvvvvvvvvvvvvvvvvvvvvvvvvvvvvvvvvvvvvvvvvvvvvvvvvvvvvvvvvvvvvvvvvvvvvvvvvvvvvvvvvvvvvvvvvvvvvvvvvvvvvvvvvvvvvvvvvvvvvvvvvvvvvvvvvvvvvvvvvvvvvvvvvvvvvvvvvvvvvvvvvvvvvvvvvvvvvvvvvvvvvvvvvvvvvvvvvvvvvvvvvvvvvvvvvvvvvvvvvvvvvvvvvvvvvvvvvvvvvvvvvvvvvvvvvvvvvvvvvvvvvvvvvvvvvvvvvvvvvvvvvvvvvvvvvvvvvvvvvvvvvvvvvvvvvvvvvvvvvvvvvvvvvvvvvvvvvvvvvvvvvvvvvvvvvvvvvvvvvvvvvvvvvvvvvvvvvvvvvvvvvvvvvvvvvvvvvvvvvvvvvvvvvvvvvvvvvvvvvvvvvvvvvvvvvvvvvvvvvvvvvvvvvvvvvvvvvvvvvvvvvvvvvvvvvvvvvvvvvvvvvvvvvvvvvvvvvvvvvvvvvvvvvvvvvvvvvvvvvvvvvvvvvvvvvvvvvvvvvvvvvvvvvvvvvvvvvvvvvvvvvvvvvvvvvvvvvvvvvvvvvvvvvvvvvvvvvvvvvvvvvvvvvvvvvvvvvvvvvvvvvvvvvvvvvvvvvvvvvvvvvvvvvvvvvvvvvvvvvvvvvvvvvvvvvvvvvvvvvvvvvvvvvvvvvvvvvvvvvvvvvvvvvvvvvvvvvvvvvvvvvvvvvvvvvvvvvvvvvvvvvvvvvvvvvvvvvvvvvvvvvvvvvvvvvvvvvvvvvvvvvvvvvvvvvvvvvvvvvvvvvvvvvvvvvvvvvvvvvvvvvvvvvvvvvvvvvvvvvvvvvvvvvvvvvvvvvvvvvvvvvvvvvvvvvvvvvvvvvvvvvvvvvvvvvvvvvvvvvvvvvvvvvvvvvvvvvvvvvvvvvvvvvvvvvvvvvvvvvvvvvvvvvvvvvvvvvvvvvvvvvvvvvvvvvvvvvvvvvvvvvvvvvvvvvvvvvvvvvvvvvvvvvvvvvvvvvvvvvvvvvvvvvvvvvvvvvvvvvvvvvvvvvvvvvvvvvvvvvvvvvvvvvvvvvvvvvvvvvvvvvvvvvvvvvvvvvvvvvvvvvvvvvvvvvvvvvvvvvvvvvvvvvvvvvvvvvvvvvvvvvvvvvvvvvvvvvvvvvvvvvvvvvvvvvvvvvvvvvvvvvvvvvvvvvvvvvvvvvvvvvvvvvvvvvvvvvvvvvvvvvvvvvvvvvvvvvvvvvvvvvvvvvvvvvvvvvvvvvvvvvvvvvvvvvvvvvvvvvvvvvvvvvvvvvvvvvvvvvvvvvvvvvvvvvvvvvvvvvvvvvvvvvvvvvvvvvvvvvvvvvvvvvvvvvvvvvvvvvvvvvvvvvvvvvvvvvvvvvvvvvvvvvvvvvvvvvvvvvvvvvvvvvvvvvvvvvvvvvvvvvvvvvvvvvvvvvvvvvvvvvvvvvvvvvvvvvvvvvvvvvvvvvvvvvvvvvvvvvvvvvvvvvvvvvvvvvvvvvvvvvvvvvvvvvvvvvvvvvvvvvvvvvvvvvvvvvvvvvvvvvvvvvvvvvvvvvvvvvvvvvvvvvvvvvvvvvvvvvvvvvvvvvvvvvvvvvvvvvvvvvvvvvvvvvvvvvvvvvvvvvvvvvvvvvvvvvvvvvvvvvvvvvvvvvvvvvvvvvvvvvvvvvvvvvvvvvvvvvvvvvvvvvvvvvvvvvvvvvvvvvvvvvvvvvvvvvvvvvvvvvvvvvvvvvvvvvvvvvvvvvvvvvvvvvvvvvvvvvvvvvvvvvvvvvvvvvvvvvvvvvvvvvvvvvvvvvvvvvvvvvvvvvvvvvvvvvvvvvvvvvvvvvvvvvvvvvvvvvvvvvvvvvvvvvvvv;;\n\
";
