//! The words of a line that spaces part.
ghost use Rattle.std.specs.Prelude.{◌≡◌, ◌==◌, ◌<◌, length, position, option_map, IfSome};
ghost use Rattle.worktree_report.specs.SetupFields.{split_at_first_space};
ghost use Rattle.worktree_report.specs.SetupSeen.{seen};

/// A word, and what is behind the space that ends it.
#[derive(Clone, Copy, Debug)]
pub struct Field<'a> {
    pub word: &'a [u8],
    pub rest: &'a [u8],
}

/// The place of the first space.
fn index_of_first_space(bytes: &[u8]) -> Option<usize>
    ensures place { result ≡ position (λ b. b == 32) bytes.now }
    ensures within { IfSome result (λ place. place < length bytes.now) }
{
    bytes.iter().position(|b| *b == b' ')
}

/// The bytes before the first space, and those behind it. None where there is no space.
pub fn split_at_first_space(bytes: &[u8]) -> Option<Field<'_>>
    ensures { option_map seen result ≡ split_at_first_space bytes.now }
{
    let Some(place) = index_of_first_space(bytes) else {
        return None;
    };
    let (word, _) = bytes.split_at(place);
    let (_, rest) = bytes.split_at(place + 1);
    Some(Field { word, rest })
}
