//! Why a text or a value says nothing.
use gitbase_core::OutOfMemory;

/// Why a text is no configuration.
#[derive(Clone, Copy, Debug, PartialEq, Eq, thiserror::Error)]
pub enum ParseError {
    /// A line is outside the grammar of git-config(1); this is the first such line.
    #[error("Syntax")]
    Syntax {
        /// The number of the line, from 1.
        line: usize,
    },
    /// Want of memory.
    #[error("OutOfMemory")]
    OutOfMemory,
}

impl From<OutOfMemory> for ParseError {
    ghost use Rattle.std.specs.Prelude.{◌≡◌};
    ghost use Rattle.git_config_lite.specs.declared.error.ParseError.TheVariants as errors;

    ghost from_gives = { λ _ e. e ≡ errors.OutOfMemory };

    fn from(_refused: OutOfMemory) -> ParseError {
        ParseError::OutOfMemory
    }
}

/// A value is no boolean of git-config(1).
#[derive(Clone, Copy, Debug, PartialEq, Eq, thiserror::Error)]
#[error("ValueError")]
pub struct ValueError<'a> {
    /// The value.
    pub input: &'a [u8],
}
