//! Why the text of `.gitmodules` is refused.
use git_config_lite::ParseError;
use gitbase_core::OutOfMemory;

/// Why the text of `.gitmodules` is refused.
#[derive(Clone, Copy, Debug, PartialEq, Eq, thiserror::Error)]
pub enum Error {
    /// A line is outside the grammar of configurations.
    #[error("Parse")]
    Parse {
        /// The first such line, counted from 1.
        line: usize,
    },
    /// Want of memory.
    #[error("OutOfMemory")]
    OutOfMemory,
}

impl From<OutOfMemory> for Error {
    ghost use Rattle.std.specs.Prelude.{◌≡◌};
    ghost use Rattle.submodule.specs.declared.init.Error.TheVariants as errors;

    ghost from_gives = { λ _ e. e ≡ errors.OutOfMemory };

    fn from(_refused: OutOfMemory) -> Error {
        Error::OutOfMemory
    }
}

impl From<ParseError> for Error {
    ghost use Rattle.std.specs.Prelude.{◌≡◌};
    ghost use Rattle.submodule.specs.InitErrors.{init_error_of_parse_error};

    ghost from_gives = { λ refused e. e ≡ init_error_of_parse_error refused };

    fn from(refused: ParseError) -> Error {
        match refused {
            ParseError::Syntax { line } => Error::Parse { line },
            ParseError::OutOfMemory => Error::OutOfMemory,
        }
    }
}
