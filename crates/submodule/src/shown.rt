//! How bytes are shown in the texts of errors.
use bstr::BStr;
use gitbase_core::Bytes;

/// Bytes as text, with U+FFFD for what is not UTF-8.
pub fn lossy_text_of_bytes(bytes: &Bytes) -> BStr<'_> {
    BStr::new(bytes.as_bytes())
}
