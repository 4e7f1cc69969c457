//! Worked rows, ids as git prints them, the texts of errors, and each call that takes memory with
//! enough of it.
mod index;
mod objects;
mod paths;
mod texts;

use bstr::ByteSlice;
