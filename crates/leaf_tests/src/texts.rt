//! The texts of the errors for which gitoxide has none: the names of their variants, or of their
//! types.
use crate::rows::is_shown;
use git_config_lite::{ParseError, ValueError};
use glob_rules::pathspec;
use std::alloc::Global;
use submodule::{
    FieldError, RefspecError, UpdateParseError, UrlError, branch, init, is_active_platform, path,
    update, url,
};

const MEMORY: &[u8] = b"OutOfMemory";

fn shows_wants_of_memory(alloc: Global) -> bool {
    is_shown(alloc, &path::Error::OutOfMemory, MEMORY)
        && is_shown(alloc, &url::Error::OutOfMemory, MEMORY)
        && is_shown(alloc, &UrlError::OutOfMemory, MEMORY)
        && is_shown(alloc, &update::Error::OutOfMemory, MEMORY)
        && is_shown(alloc, &UpdateParseError::OutOfMemory, MEMORY)
        && is_shown(alloc, &branch::Error::OutOfMemory, MEMORY)
        && is_shown(alloc, &RefspecError::OutOfMemory, MEMORY)
        && is_shown(alloc, &FieldError::OutOfMemory, MEMORY)
        && is_shown(alloc, &init::Error::OutOfMemory, MEMORY)
        && is_shown(alloc, &is_active_platform::Error::OutOfMemory, MEMORY)
        && is_shown(alloc, &pathspec::Error::OutOfMemory, MEMORY)
        && is_shown(alloc, &ParseError::OutOfMemory, MEMORY)
}

fn shows_values(alloc: Global) -> bool {
    is_shown(alloc, &UrlError::EmptyHost, b"EmptyHost")
        && is_shown(alloc, &UrlError::Port, b"Port")
        && is_shown(alloc, &RefspecError::Invalid, b"Invalid")
        && is_shown(alloc, &UpdateParseError::Invalid, b"Invalid")
        && is_shown(alloc, &ValueError { input: b"x" }, b"ValueError")
}

fn shows_texts(alloc: Global) -> bool {
    let parse = is_active_platform::Error::ParsePattern { value: 1, at: 2 };
    let normalize = is_active_platform::Error::NormalizePattern { value: 1 };
    is_shown(alloc, &ParseError::Syntax { line: 2 }, b"Syntax")
        && is_shown(alloc, &init::Error::Parse { line: 2 }, b"Parse")
        && is_shown(alloc, &parse, b"ParsePattern")
        && is_shown(alloc, &normalize, b"NormalizePattern")
        && is_shown(alloc, &pathspec::Error::Parse { at: 2 }, b"Parse")
        && is_shown(alloc, &pathspec::Error::Normalize, b"Normalize")
}

#[test]
fn errors_are_shown_by_their_names(rt: HostRuntime) {
    let alloc = rt.alloc();
    assert!(rt; shows_wants_of_memory(alloc));
    assert!(rt; shows_values(alloc) && shows_texts(alloc));
}
