//! The submodules of a repository, as `.gitmodules` and the configuration tell of them.
#![tactic(auto)]

mod access;
pub mod branch;
mod fetch_recurse;
mod field;
mod file;
mod ignore;
pub mod init;
pub mod is_active_platform;
mod named_path;
mod names;
mod overrides;
pub mod path;
mod path_table;
mod port;
mod shown;
mod states;
mod text;
pub mod update;
pub mod url;
mod url_parts;

pub use branch::{Branch, RefspecError};
pub use fetch_recurse::FetchRecurse;
pub use field::{FieldError, FieldName};
pub use file::File;
pub use ignore::Ignore;
pub use is_active_platform::IsActivePlatform;
pub use names::Names;
pub use states::NamesAndActive;
pub use update::{Update, UpdateParseError};
pub use url::{Url, UrlError};
