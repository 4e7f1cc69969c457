//! What git answers of rules and paths; made by `scripts/ask-git-ignore` with git version 2.39.5.
//!
//! A row has the line that decides, or 0; in the tables of differences `/` and the line that the
//! definitions name; then `d` or `f` for a directory or a file, the path, and the rules with `|` in
//! the place of each LF.

/// Where case counts, for rules of the root.
pub const ANSWERS: &[u8] = b"\
1;f;a;a\n\
0;f;b;a\n\
0;f;ab;a\n\
1;f;x/a;a\n\
1;f;x/y/a;a\n\
0;f;A;a\n\
1;f;a/b;a/b\n\
0;f;x/a/b;a/b\n\
0;f;b;a/b\n\
1;f;a;/a\n\
0;f;x/a;/a\n\
1;f;a/b;/a/b\n\
0;f;c/a/b;/a/b\n\
0;f;a;./a\n\
1;f;a/b/c;a/b/c\n\
0;f;b/c;a/b/c\n\
0;f;a;/\n\
0;d;a;/\n\
0;d;a;//\n\
0;f;a;!\n\
0;f;!;!\n\
0;d;a;!/\n\
0;f;a;\n\
1;d;doc;doc/\n\
0;f;doc;doc/\n\
1;d;x/doc;doc/\n\
0;f;x/doc;doc/\n\
1;d;doc;/doc/\n\
0;d;x/doc;/doc/\n\
0;f;doc;/doc/\n\
1;d;a/b;a/b/\n\
0;f;a/b;a/b/\n\
0;d;doc;doc//\n\
0;f;doc;doc//\n\
1;d;d;*/\n\
0;f;f;*/\n\
1;d;doc;!doc/\n\
0;f;doc;!doc/\n\
1;f;x.o;*.o|!k.o\n\
2;f;k.o;*.o|!k.o\n\
2;f;d/k.o;*.o|!k.o\n\
0;f;k;*.o|!k.o\n\
3;f;a;a|!a|a\n\
1;f;a;!a|b\n\
2;f;b;!a|b\n\
0;f;c;!a|b\n\
1;f;!a;!!a\n\
0;f;a;!!a\n\
1;f;!a;\\!a\n\
0;f;\\!a;\\!a\n\
1;f;!a;!\\!a\n\
1;f; a;! a\n\
0;f;a;! a\n\
3;f;a;# c||a\n\
0;f;# c;# c||a\n\
0;f;#a;#a\n\
1;f;#a;\\#a\n\
1;f; #a; #a\n\
1;f;a#b;a#b\n\
0;f;a;a#b\n\
1;f;#a;!#a\n\
6;f;a;|||x||a|\n\
4;f;x;|||x||a|\n\
1;f;a;a\r|b\r|\n\
2;f;b;a\r|b\r|\n\
0;f;a\r;a\r|b\r|\n\
1;f;a\rb;a\rb|\n\
0;f;a;a\rb|\n\
1;f;a\r;a\r\r|\n\
0;f;a;a\r\r|\n\
1;f;a;\xef\xbb\xbfa|b\n\
2;f;b;\xef\xbb\xbfa|b\n\
0;f;a;b|\xef\xbb\xbfa|\n\
2;f;\xef\xbb\xbfa;b|\xef\xbb\xbfa|\n\
1;f;a;a \n\
0;f;a ;a \n\
1;f;a;a   \n\
1;f;a ;a\\ \n\
0;f;a;a\\ \n\
1;f;a ;a\\  \n\
0;f;a  ;a\\  \n\
1;f;a  ;a \\ \n\
0;f;a ;a \\ \n\
1;f;a;a \r|\n\
0;f;a ;a \r|\n\
0;f;a;a\t\n\
1;f;a\t;a\t\n\
1;f; a; a\n\
0;f;a; a\n\
1;f;a b;a b\n\
0;f; ;   \n\
0;f;a;   \n\
1;f; ;\\ \n\
1;f;a;*\n\
1;f;.a;*\n\
1;f;k.o;*.o\n\
1;f;.o;*.o\n\
0;f;k.oo;*.o\n\
1;f;d/k.o;*.o\n\
1;f;a;a*\n\
1;f;abc;a*\n\
0;f;ba;a*\n\
1;f;bab;*a*\n\
0;f;b;*a*\n\
1;f;axbxc;a*b*c\n\
0;f;acb;a*b*c\n\
1;f;abc;a*b*c\n\
1;f;a/b;a/*\n\
0;f;a;a/*\n\
0;f;x/a/b;a/*\n\
1;f;x/a;*/a\n\
0;f;a;*/a\n\
0;f;x/y/a;*/a\n\
1;f;a/x/b;a/*/b\n\
0;f;a/b;a/*/b\n\
0;f;a/x/y/b;a/*/b\n\
1;f;axb/c;a*b/c\n\
1;f;ab/c;a*b/c\n\
0;f;a/b/c;a*b/c\n\
1;f;ab;/*b\n\
0;f;a/b;/*b\n\
1;f;a;**\n\
1;f;a;***\n\
1;f;axxb;a**b\n\
1;f;ab;a**b\n\
0;f;ax/b;a**b\n\
1;f;x/a1b;x/a**b\n\
0;f;x/a/b;x/a**b\n\
1;f;axx/b;a**/b\n\
1;f;a/b;a**/b\n\
1;f;xa;**a\n\
0;f;ax;**a\n\
1;f;xa/b;**a/b\n\
0;f;y/xa/b;**a/b\n\
1;f;a/xb;a/**b\n\
0;f;a/x/b;a/**b\n\
1;f;a/x;a/***\n\
0;f;a;a/***\n\
1;f;a;**/a\n\
1;f;x/a;**/a\n\
1;f;x/y/a;**/a\n\
0;f;ba;**/a\n\
0;f;x/ba;**/a\n\
1;f;a/b;**/a/b\n\
1;f;x/a/b;**/a/b\n\
0;f;xa/b;**/a/b\n\
1;f;a/b;a/**/b\n\
1;f;a/x/b;a/**/b\n\
1;f;a/x/y/b;a/**/b\n\
0;f;ab;a/**/b\n\
0;f;a/xb;a/**/b\n\
1;f;a;/**/a\n\
1;f;x/a;/**/a\n\
1;d;d;**/\n\
0;f;f;**/\n\
1;f;a;**/**/a\n\
1;f;x/y/a;**/**/a\n\
1;f;a/b;a/**/**/b\n\
1;f;a/x/b;a/**/**/b\n\
1;d;a/x;a/**/\n\
0;f;a/x;a/**/\n\
0;d;a;a/**/\n\
1;f;k.o;**/*.o\n\
1;f;x/k.o;**/*.o\n\
1;f;a/b;a\\/**/b\n\
1;f;a/x/y/b;a\\/**/b\n\
1;f;a/x;a/**\n\
0;f;a;a/**\n\
0;d;a;a/**\n\
0;f;b/a/x;a/**\n\
1;f;a;/**\n\
1;f;a/b;a/**/*\n\
0;d;a;a/**/*\n\
1;f;a;?\n\
0;f;ab;?\n\
1;f;xy/a;?\n\
0;f;\xc3\xa9;?\n\
1;f;\xc3\xa9;??\n\
1;f;abc;a?c\n\
0;f;ac;a?c\n\
0;f;a/b;/a?b\n\
1;f;axb;/a?b\n\
1;f;a;*?\n\
1;f;*;\\*\n\
0;f;a;\\*\n\
1;f;?;\\?\n\
0;f;a;\\?\n\
1;f;[a];\\[a]\n\
0;f;a;\\[a]\n\
1;f;ab;a\\b\n\
0;f;a\\b;a\\b\n\
1;f;\\;\\\\\n\
1;f;a*b;a\\*b\n\
0;f;axb;a\\*b\n\
1;f;a/b;a\\/b\n\
0;f;x/a/b;a\\/b\n\
0;d;a;a\\/\n\
0;f;\\;\\\n\
0;f;a;a\\\n\
0;f;a\\;a\\\n\
1;f;b;[abc]\n\
0;f;d;[abc]\n\
0;f;ab;[abc]\n\
1;f;bx;[a-c]x\n\
0;f;dx;[a-c]x\n\
1;f;dx;[!a-c]x\n\
0;f;bx;[!a-c]x\n\
1;f;dx;[^a-c]x\n\
0;f;ax;[^a-c]x\n\
1;f;];[]]\n\
1;f;a;[!]]\n\
0;f;];[!]]\n\
1;f;^;[]-a]\n\
0;f;b;[]-a]\n\
1;f;-;[a-]\n\
1;f;a;[a-]\n\
0;f;b;[a-]\n\
1;f;-;[-a]\n\
1;f;-;[a-c-e]\n\
0;f;d;[a-c-e]\n\
1;f;e;[a-c-e]\n\
1;f;b;[a-\\c]\n\
0;f;d;[a-\\c]\n\
1;f;b;[\\a-c]\n\
1;f;];[\\]]\n\
1;f;\\;[\\\\]\n\
0;f;b;[c-a]\n\
0;f;a;[c-a]\n\
1;f;-;[--0]\n\
1;f;0;[--0]\n\
0;f;1;[--0]\n\
1;f;,;[+--]\n\
1;f;-;[+--]\n\
1;f;[;[[]\n\
0;f;!;[!!]\n\
1;f;a;[!!]\n\
0;f;^;[^^]\n\
1;f;a;[^^]\n\
1;f;!;[a!]\n\
1;f;42;[0-9][0-9]\n\
0;f;4;[0-9][0-9]\n\
1;f;a/c;[ab]/c\n\
0;f;c/c;[ab]/c\n\
1;f;ab;[a/]b\n\
0;f;x/ab;[a/]b\n\
0;f;x/y;x[/]y\n\
0;f;x/y;/x[!a]y\n\
1;f;xby;/x[!a]y\n\
0;f;[;[\n\
0;f;a[;a[\n\
0;f;a;[a\n\
0;f;[a;[a\n\
0;f;];[]\n\
0;f;[];[]\n\
0;f;a;[!]\n\
0;f;a;[a\\]\n\
1;f;a;[[:alnum:]]\n\
1;f;7;[[:alnum:]]\n\
0;f;_;[[:alnum:]]\n\
1;f;a;[[:alpha:]]\n\
0;f;7;[[:alpha:]]\n\
1;f; ;[[:blank:]]\n\
1;f;\t;[[:blank:]]\n\
0;f;a;[[:blank:]]\n\
1;f;\x01;[[:cntrl:]]\n\
0;f;a;[[:cntrl:]]\n\
1;f;7;[[:digit:]]\n\
0;f;a;[[:digit:]]\n\
1;f;!;[[:graph:]]\n\
0;f; ;[[:graph:]]\n\
1;f;a;[[:lower:]]\n\
0;f;A;[[:lower:]]\n\
1;f; ;[[:print:]]\n\
0;f;\x01;[[:print:]]\n\
1;f;!;[[:punct:]]\n\
0;f;a;[[:punct:]]\n\
1;f;\t;[[:space:]]\n\
1;f; ;[[:space:]]\n\
0;f;a;[[:space:]]\n\
1;f;A;[[:upper:]]\n\
0;f;a;[[:upper:]]\n\
1;f;f;[[:xdigit:]]\n\
0;f;g;[[:xdigit:]]\n\
1;f;a;[[:digit:]a]\n\
1;f;5;[[:digit:]a]\n\
1;f;a;[![:digit:]]\n\
0;f;5;[![:digit:]]\n\
1;f;-;[[:digit:]-z]\n\
1;f;z;[[:digit:]-z]\n\
0;f;a;[[:digit:]-z]\n\
1;f;5;[[:alpha:][:digit:]]\n\
0;f;_;[[:alpha:][:digit:]]\n\
0;f;7;[[:digt:]]\n\
0;f;d;[[:digt:]]\n\
0;f;x:;x[[::]]\n\
1;f;x:;x[[:]\n\
1;f;x[;x[[:]\n\
0;f;xa;x[[:]\n\
1;f;a;[[:a]\n\
1;f;[;[[:a]\n\
1;f;d;[[:digit]\n\
0;f;7;[[:digit]\n\
1;f;ab:]];[[:a]b:]]\n\
1;f;[b:]];[[:a]b:]]\n\
1;f;a];[[.a.]]\n\
0;f;a;[[.a.]]\n\
1;f;x/a;***/a\n\
1;f;x/a;**\\/a\n\
0;f;a;**\\/a\n\
";

/// Where case does not count.
pub const FOLDED: &[u8] = b"\
1;f;A;a\n\
0;f;b;a\n\
1;f;a/b;A/B\n\
1;f;axb;A*B\n\
1;f;k.o;*.O\n\
1;f;b;[A-Z]\n\
0;f;1;[A-Z]\n\
1;f;B;[a-z]\n\
0;f;b;[!A-C]\n\
1;f;d;[!A-C]\n\
0;f;B;[!a-c]\n\
1;f;D;[!a-c]\n\
1;f;a;[[:upper:]]\n\
0;f;1;[[:upper:]]\n\
1;f;A;[[:lower:]]\n\
1;f;b;[@-B]\n\
0;f;c;[@-B]\n\
0;f;\xc3\xa9;\xc3\x89\n\
";

/// For rules of the directory `sub`.
pub const BENEATH: &[u8] = b"\
1;f;sub/a;a\n\
1;f;sub/x/a;a\n\
1;f;sub/a;/a\n\
0;f;sub/x/a;/a\n\
0;f;a;/a\n\
1;f;sub/a/b;a/b\n\
0;f;sub/x/a/b;a/b\n\
0;f;a/b;a/b\n\
1;f;sub/b;**/b\n\
1;f;sub/x/b;**/b\n\
0;f;b;**/b\n\
0;f;sub/a;/sub/a\n\
1;f;sub/sub/a;/sub/a\n\
1;f;sub/a;/*\n\
0;f;subway/a;/*\n\
";

/// Where git answers otherwise and case counts:
///
/// - git counts three or more stars before `/` as `**/`; here they take one component
///
/// - the same at the end of a rule: git lets them take slashes
///
/// - git takes `**` before `/` as `**/` after other bytes too, against its manual; here it is a run
///   like any other
///
/// - git's `space` lacks the vertical tab and the form feed; here it is that of POSIX
///
/// - git lets `**` before an escaped slash take slashes; here it is a run like any other
///
/// - git tries the lower end of a range as a member too; here ends turned round leave nothing
///
/// - git reads `\\` before a last space as a whole escape and drops the space; here the byte before
///   decides
///
/// - git drops the CR of a last line without LF; here a CR is dropped only before an LF
///
/// - git ends a rule at a NUL; here it is a byte like any other
pub const DIFFERENCES: &[u8] = b"\
1/0;f;a;***/a\n\
1/0;f;x/y/a;***/a\n\
1/0;f;a/b;!/***\n\
1/0;f;a/x/b;a**/b\n\
0/1;f;\x0b;[[:space:]]\n\
0/1;f;\x0c;[[:space:]]\n\
1/0;f;x/y/a;**\\/a\n\
1/0;f;c;[c-a]\n\
1/0;f;a\\;a\\\\ \n\
0/1;f;a\\ ;a\\\\ \n\
1/0;f;a;a\r\n\
0/1;f;a\r;a\r\n\
1/0;f;q;*\x00x\n\
";

/// Where git answers otherwise and case does not count:
///
/// - git does not fold an escaped letter; here it is a byte like any other
///
/// - git compares a single byte of a class in upper case with the lowered text; here a class has
///   both cases
pub const FOLDED_DIFFERENCES: &[u8] = b"\
0/1;f;a;\\A\n\
0/1;f;A;\\A\n\
0/1;f;a;[AC]\n\
0/1;f;A;[AC]\n\
";

/// Where git answers otherwise, for rules of the directory `sub`:
///
/// - git asks a directory's rules of the paths beneath it alone; here a rule by the last component
///   knows no directory
pub const BENEATH_DIFFERENCES: &[u8] = b"\
0/1;f;a;a\n\
0/1;f;x/a;a\n\
";
