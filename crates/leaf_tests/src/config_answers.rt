//! What git answers of configuration files; made by `scripts/ask-git-config` with git version 2.39.5.
//!
//! A row has the answer, the section, `-` or a double quote with the subsection, the key, and the
//! text of the file, with `~` in the place of each LF. An answer has each value behind a `|`, or
//! the line of a text that is refused behind a `!`.

/// All values of a key.
pub const ANSWERS: &[u8] = b"\
|v^a^-^k^[a]~k = v~\n\
^a^-^other^[a]~k = v~\n\
^b^-^k^[a]~k = v~\n\
^a^\"s^k^[a]~k = v~\n\
|v^a^-^k^[a]~k=v\n\
|v^a^-^k^[a]~\tk\t=\tv ~\n\
|v w^a^-^k^[a]~  k  =  v w  ~\n\
|v^a^-^k^[a]\r~k = v\r~\n\
|v^a^-^k^\xef\xbb\xbf[a]~k = v~\n\
|v^a^-^k^~~[a]~~~k = v~~\n\
|^a^-^k^[a]~k =~\n\
|^a^-^k^[a]~k = \t~\n\
|v^a^-^k-2^[a]~k-2 = v~K3 = w~\n\
|v^a^-^K-2^[a]~k-2 = v~K3 = w~\n\
|w^a^-^k3^[a]~k-2 = v~K3 = w~\n\
|a=b^a^-^k^[a]~k = a=b~\n\
|[b]^a^-^k^[a]~k = [b]~\n\
^a^-^k^\n\
|^a^-^k^[a]~k~\n\
||v^a^-^k^[a]~k  ~k = v~\n\
|v^a^-^k^# c~; c~[a]~# k = x~k = v~  ; c~\n\
|v^a^-^k^[a]~k = v # c~\n\
|v^a^-^k^[a]~k = v;c~\n\
|v^a^-^k^[a]~k = v#c\\~j = w~\n\
|w^a^-^j^[a]~k = v#c\\~j = w~\n\
|v^a^-^k^[a] # c~k = v~\n\
|v^a^-^k^[a];c~k = v~\n\
|^a^-^k^[a]~k = # c~\n\
|v^a^-^k^[a]~k = \"v\"~\n\
| v ^a^-^k^[a]~k = \" v \"~\n\
|a # b ; c^a^-^k^[a]~k = \"a # b ; c\"~\n\
|a^a^-^k^[a]~k = \"a\" # \"b~\n\
|abc^a^-^k^[a]~k = a\"b\"c~\n\
|a  b  c^a^-^k^[a]~k = a \" b \" c ~\n\
|^a^-^k^[a]~k = \"\"~\n\
|a^a^-^k^[a]~k = \"a\"  ~\n\
|a\tb^a^-^k^[a]~k = \"a\tb\"~\n\
|a  b^a^-^k^[a]~k = a  b~\n\
|v ^a^-^k^[a]~k = v \"\"~\n\
|v ^a^-^k^[a]~k = v \"\" # c~\n\
|^a^-^k^[a]~k = \"\"  ~\n\
|a~b^a^-^k^[a]~k = a\\nb~\n\
|a\tb\x08c^a^-^k^[a]~k = a\\tb\\bc~\n\
|\"a\"^a^-^k^[a]~k = \\\"a\\\"~\n\
|a\\b^a^-^k^[a]~k = a\\\\b~\n\
|a~b\\\"^a^-^k^[a]~k = \"a\\nb\\\\\\\"\"~\n\
|a\\^a^-^k^[a]~k = a\\\\~\n\
|ab^a^-^k^[a]~k = a\\~b~j = c~\n\
|c^a^-^j^[a]~k = a\\~b~j = c~\n\
|a  b^a^-^k^[a]~k = a\\~  b~\n\
|a b^a^-^k^[a]~k = a \\~b~\n\
|ab^a^-^k^[a]~k = a\\\r~b\r~\n\
|b^a^-^k^[a]~k = \\~b~\n\
|b^a^-^k^[a]~k = \\~  b~\n\
|v^a^-^k^[a]~k = v\\\n\
|a^a^-^k^[a]~k = a\\~~j = c~\n\
|c^a^-^j^[a]~k = a\\~~j = c~\n\
|ab^a^-^k^[a]~k = a\\~b # c\\~j = d~\n\
|d^a^-^j^[a]~k = a\\~b # c\\~j = d~\n\
|a[b]^a^-^k^[a]~k = a\\~[b]~\n\
|ab cd^a^-^k^[a]~k = a\\~\"b c\"\\~d~\n\
|a^a^-^k^[a]~k = a\\~# b~j = c~\n\
|c^a^-^j^[a]~k = a\\~# b~j = c~\n\
|v^a^-^k^[A]~K = v~\n\
|v^A^-^k^[A]~K = v~\n\
|v^a^-^K^[A]~K = v~\n\
|v^a^\"s^k^[a \"s\"]~k = v~\n\
^a^\"S^k^[a \"s\"]~k = v~\n\
^a^-^k^[a \"s\"]~k = v~\n\
|v^A^\"s^K^[a \"s\"]~k = v~\n\
|v^a^\"s^k^[a \t \"s\"]~k = v~\n\
|v^a^\"^k^[a \"\"]~k = v~\n\
^a^-^k^[a \"\"]~k = v~\n\
|v^a^\"s t^k^[a \"s t\"]~k = v~\n\
|v^a^\"s.t^k^[a \"s.t\"]~k = v~\n\
|v^a^\"s\"t^k^[a \"s\\\"t\"]~k = v~\n\
|v^a^\"s\\t^k^[a \"s\\\\t\"]~k = v~\n\
|v^a^\"snt^k^[a \"s\\nt\"]~k = v~\n\
|v^a^\"s]#;^k^[a \"s]#;\"]~k = v~\n\
|v^a^-^k^[a] k = v~\n\
|v^a^-^k^[a]k = v~j~\n\
|^a^-^j^[a]k = v~j~\n\
|v^a^\"s^k^[a \"s\"] k = v~[a] k = w~\n\
|w^a^-^k^[a \"s\"] k = v~[a] k = w~\n\
|v^a-1^-^k^[a-1]~k = v~\n\
|v^a^-^k^  [a]~k = v~\n\
|1|2^a^-^k^[a]~k = 1~k = 2~\n\
|1|3^a^-^k^[a]~k = 1~[b]~k = 2~[a]~K = 3~\n\
|2^b^-^k^[a]~k = 1~[b]~k = 2~[a]~K = 3~\n\
|1|3^a^\"s^k^[a \"s\"]~k = 1~[a]~k = 2~[A \"s\"]~k = 3~[a \"S\"]~k = 4~\n\
|2^a^-^k^[a \"s\"]~k = 1~[a]~k = 2~[A \"s\"]~k = 3~[a \"S\"]~k = 4~\n\
|4^a^\"S^k^[a \"s\"]~k = 1~[a]~k = 2~[A \"s\"]~k = 3~[a \"S\"]~k = 4~\n\
|1|||4^a^-^k^[a]~k = 1~k~k =~k = 4~\n\
!2^a^-^k^[a]~[b~\n\
!2^a^-^k^[a]~k = \"v~\n\
!2^a^-^k^[a]~k = \"v~\"~\n\
!2^a^-^k^[a]~k = \\q~\n\
!3^a^-^k^[a]~j = w~k = \"\\q\"~\n\
!2^a^-^k^[a]~1k = v~\n\
!2^a^-^k^[a]~-k = v~\n\
!2^a^-^k^[a]~k_ = v~\n\
!2^a^-^k^[a]~k v~\n\
!2^a^-^k^[a]~k \"v\"~\n\
!1^a^-^k^[a~k = v~\n\
!1^a^-^k^[a \"s]~k = v~\n\
!1^a^-^k^[a s]~k = v~\n\
!1^a^-^k^[a \"s\" ]~k = v~\n\
!1^a^-^k^[a ]~k = v~\n\
!1^a^-^k^[ a]~k = v~\n\
!1^a^-^k^[a\"s\"]~k = v~\n\
!1^a^-^k^[a_b]~k = v~\n\
!1^a^-^k^[]~k = v~\n\
!1^a^-^k^[\"s\"]~k = v~\n\
!1^a^-^k^[a \"s\\\n\
!2^a^-^k^[a]~k\r= v~\n\
!1^a^-^k^]~\n\
!1^a^-^k^= v~\n\
!3^a^-^k^[a]~k = a\\~b\\q~\n\
!4^a^-^k^[a]~k = a\\~b\\~\"c~\n\
";

/// What a key says as a boolean.
pub const BOOLEANS: &[u8] = b"\
true^a^-^k^[a]~k~\n\
false^a^-^k^[a]~k = ~\n\
true^a^-^k^[a]~k = true~\n\
true^a^-^k^[a]~k = yes~\n\
true^a^-^k^[a]~k = on~\n\
true^a^-^k^[a]~k = True~\n\
true^a^-^k^[a]~k = YES~\n\
true^a^-^k^[a]~k = oN~\n\
false^a^-^k^[a]~k = false~\n\
false^a^-^k^[a]~k = no~\n\
false^a^-^k^[a]~k = off~\n\
false^a^-^k^[a]~k = False~\n\
false^a^-^k^[a]~k = NO~\n\
false^a^-^k^[a]~k = oFF~\n\
false^a^-^k^[a]~k = 0~\n\
true^a^-^k^[a]~k = 1~\n\
true^a^-^k^[a]~k = 2~\n\
false^a^-^k^[a]~k = 00~\n\
true^a^-^k^[a]~k = 010~\n\
true^a^-^k^[a]~k = -1~\n\
true^a^-^k^[a]~k = +1~\n\
false^a^-^k^[a]~k = -0~\n\
false^a^-^k^[a]~k = +0~\n\
false^a^-^k^[a]~k = 0k~\n\
true^a^-^k^[a]~k = 1k~\n\
true^a^-^k^[a]~k = 1K~\n\
true^a^-^k^[a]~k = 2m~\n\
true^a^-^k^[a]~k = 2M~\n\
true^a^-^k^[a]~k = 1g~\n\
true^a^-^k^[a]~k = 1G~\n\
error^a^-^k^[a]~k = 1kk~\n\
error^a^-^k^[a]~k = k~\n\
error^a^-^k^[a]~k = 1.5~\n\
error^a^-^k^[a]~k = t~\n\
error^a^-^k^[a]~k = y~\n\
error^a^-^k^[a]~k = truee~\n\
error^a^-^k^[a]~k = 1 2~\n\
error^a^-^k^[a]~k = --1~\n\
error^a^-^k^[a]~k = 1t~\n\
true^a^-^k^[a]~k = \"yes\"~\n\
error^a^-^k^[a]~k = \" yes\"~\n\
error^a^-^k^[a]~k = x~\n\
";

/// Where git answers otherwise, its answer before the one of the definitions:
///
/// - git takes a key before any header; here a key needs one
/// - git takes a second header on a line; here a key or a comment may follow a header
/// - git refuses a comment behind a key without a value; here it may stand there
/// - git writes a space for a tab within a value; here the tab stays
/// - git drops blanks behind an empty quote that begins a value; here they belong to the value
/// - git keeps the blanks at the end of a value's line before its last one; here the blanks at its
///   end are dropped whole
/// - git lets a quote go on over a backslash at the line's end; here it is closed on its line
/// - git names the line behind the one that lacks its bracket; here it is the header's
/// - git counts a line behind a text that ends in a quote; here it is the line of the quote
/// - git drops the CR of a last line without LF; here a CR is dropped only before an LF
/// - git skips a CR at the start of a line; here it is no blank
/// - git takes a NUL in a subsection, and ends the name of a key before it; here a NUL may not
///   stand there
/// - git ends a value before a NUL; here the NUL stays
pub const DIFFERENCES: &[u8] = b"\
=>!1^a^-^k^k = v~\n\
|v=>!1^b^-^k^[a] [b]~k = v~\n\
!2=>|^a^-^k^[a]~k # c~\n\
!2=>|^a^-^k^[a]~k;c~\n\
|a b=>|a\tb^a^-^k^[a]~k = a\tb~\n\
|v=>|  v^a^-^k^[a]~k = \"\"  v~\n\
|v =>|v^a^-^k^[a]~k = v \\~  ~\n\
|ab=>!2^a^-^k^[a]~k = \"a\\~b\"~\n\
!2=>!1^a^-^k^[a \"s\"~k = v~\n\
!3=>!2^a^-^k^[a]~k = \"a\\\n\
|v=>|v\r^a^-^k^[a]~k = v\r\n\
|v=>!2^a^-^k^[a]~\rk = v~\n\
|v=>!1^a^-^s^[a \"s\x00t\"]~k = v~\n\
=>!1^a^\"s^k^[a \"s\x00t\"]~k = v~\n\
|v=>|v\x00w^a^-^k^[a]~k = v\x00w~\n\
";

/// The same for booleans:
///
/// - git reads hexadecimal numbers; here digits are decimal
/// - git reads digits behind a 0 as octal; here they are decimal
/// - git refuses numbers from 2^31 on; here a number is true whatever its size
/// - git skips white space at the front of a number; here a number begins with its sign or a digit
pub const BOOLEAN_DIFFERENCES: &[u8] = b"\
true=>error^a^-^k^[a]~k = 0x10~\n\
false=>error^a^-^k^[a]~k = 0x0~\n\
error=>true^a^-^k^[a]~k = 08~\n\
error=>true^a^-^k^[a]~k = 3000000000~\n\
error=>true^a^-^k^[a]~k = 3g~\n\
true=>error^a^-^k^[a]~k = \" 1\"~\n\
false=>error^a^-^k^[a]~k = \"\\t0k\"~\n\
true=>error^a^-^k^[a]~k = \"\\n9\"~\n\
false=>error^a^-^k^[a]~k = \" -0\"~\n\
true=>error^a^-^k^[a]~k = \x0b1~\n\
";
