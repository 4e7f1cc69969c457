//! Where the files of directories are read that speak of attributes.
ghost use Rattle.std.specs.Prelude.{◌≡◌, if◌then◌else◌};
ghost use Rattle.worktree_stack.specs.declared.attributes_source.Source.TheVariants as sources;

/// Where the `.gitattributes` of directories are read; gitoxide's
/// `gix_worktree::stack::state::attributes::Source`.
#[derive(Clone, Copy, Debug, PartialEq, Eq, Default)]
pub enum Source {
    /// From the blobs that an index maps them to, and from nowhere else.
    #[default]
    IdMapping,
    /// From the blob that an index maps the file to, and from the worktree where it is not mapped.
    IdMappingThenWorktree,
    /// From the worktree, and where it has no list, from the blob that an index maps the file to.
    WorktreeThenIdMapping,
}

impl Source {
    /// The source for a repository that may be bare, which has no worktree to read from.
    pub fn adjust_for_bare(self, is_bare: bool) -> Source
        ensures { result ≡ (if is_bare then sources.IdMapping else self) }
    {
        if is_bare { Source::IdMapping } else { self }
    }
}
