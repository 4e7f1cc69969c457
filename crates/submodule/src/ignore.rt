//! Which changes of a submodule a status leaves out.
ghost use Rattle.std.specs.Prelude.{◌≡◌, ok_or};
ghost use Rattle.submodule.specs.Ignores.{parse_ignore_word};

/// Which changes of a submodule a status leaves out, as `submodule.NAME.ignore` of gitmodules(5).
#[derive(Clone, Copy, Debug, Default, PartialEq, Eq, PartialOrd, Ord, Hash)]
pub enum Ignore {
    /// All of them.
    All,
    /// All changes to its work tree: only another commit counts.
    Dirty,
    /// Files that it does not track.
    Untracked,
    /// None.
    #[default]
    None,
}

/// The words are `all`, `dirty`, `untracked` and `none`, byte for byte; any other text is refused.
impl TryFrom<&[u8]> for Ignore {
    type Error = ();

    ghost try_from_gives = { λ value result. result ≡ ok_or (parse_ignore_word value.now) tt };

    fn try_from(value: &[u8]) -> Result<Ignore, ()> {
        if value == b"all".as_slice() {
            Ok(Ignore::All)
        } else if value == b"dirty".as_slice() {
            Ok(Ignore::Dirty)
        } else if value == b"untracked".as_slice() {
            Ok(Ignore::Untracked)
        } else if value == b"none".as_slice() {
            Ok(Ignore::None)
        } else {
            Err(())
        }
    }
}
