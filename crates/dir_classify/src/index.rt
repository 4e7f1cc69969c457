//! What the index says of a path, in the words of classes.
ghost use Rattle.std.specs.Prelude.{◌≡◌, ◌&&◌, is_some};
ghost use Rattle.dir_classify.specs.Layers.{index_kinds_at_path, from_index_kinds, nothing_in_index, IsLookupOfIndexIfGiven, IsNameInIndexDirectory};

use crate::entry::{Kind, Property};
use gitbase_core::{AccelerateLookup, Beneath, IndexKinds, State};

/// What the index says of a path.
#[derive(Clone, Copy, Debug, PartialEq, Eq)]
pub struct InIndex {
    /// The kind of an entry that is known to be as on disk; none where no entry is.
    pub up_to_date: Option<Kind>,
    /// The kind that the index has at the path; none where it has nothing there, or an entry whose
    /// mode is no file, link or submodule.
    pub kind: Option<Kind>,
    /// `TrackedExcluded` for a directory that a sparse checkout leaves out as a whole.
    pub sparse: Option<Property>,
}

const NOT_INDEXED: InIndex = InIndex {
    up_to_date: None,
    kind: None,
    sparse: None,
};

/// What an index says of a path below the worktree root, without regard to the case of letters
/// where a look-up for that is given and asked for; it says nothing of the root itself.
///
/// With regard to case it is searched as a name in a directory, among the entries beneath that.
#[tactic(auto, unfolding(crate::specs::Layers::index_kinds_at_path))]
pub(crate) fn index_kinds_at_path(
    index: &State,
    lookup: &Option<AccelerateLookup>,
    ignore_case: bool,
    path: &[u8],
    name: &[u8],
    beneath: &Beneath<'_>,
) -> InIndex
    requires lookup { IsLookupOfIndexIfGiven index.now lookup.now }
    requires seen { IsNameInIndexDirectory index.now path.now name.now beneath.now }
    ensures { result ≡ index_kinds_at_path (ignore_case && is_some lookup.now) index.now path.now }
{
    if path.is_empty() {
        return NOT_INDEXED;
    }
    match lookup {
        Some(lookup) => {
            if ignore_case {
                return from_index_kinds(index.index_kinds_of_path_icase(path, lookup));
            }
            from_index_kinds(beneath.kinds(name))
        }
        None => from_index_kinds(beneath.kinds(name)),
    }
}

fn from_index_kinds(kinds: IndexKinds) -> InIndex
    ensures { result ≡ from_index_kinds kinds }
{
    let sparse = if kinds.is_left_out {
        Some(Property::TrackedExcluded)
    } else {
        None
    };
    InIndex {
        up_to_date: kinds.up_to_date.map(Kind::from),
        kind: kinds.kind.map(Kind::from),
        sparse,
    }
}
