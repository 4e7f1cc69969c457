//! What is asked for.
ghost use Rattle.std.specs.Prelude.{◌≡◌};
ghost use Rattle.clean_plan.specs.Wanted.{keeping_special_and_spec_excluded, allowing_special_and_spec_excluded};

/// Which paths may be removed.
///
/// See docs/DIFFERENCES.md#clean-without-d.
#[derive(Clone, Copy, Debug, PartialEq, Eq, Hash)]
pub enum What {
    /// Those that are untracked.
    Untracked,
    /// Those that are untracked, and those that are ignored and expendable.
    UntrackedAndIgnored,
    /// Those that are ignored and expendable.
    IgnoredOnly,
}

/// What becomes of a node that is no file, link or directory: a pipe, a socket or a device.
#[derive(Clone, Copy, Debug, PartialEq, Eq, Hash)]
pub enum OtherNodes {
    /// It may be removed like a file.
    Go,
    /// It stays, unless a directory above it goes as a whole.
    Stay,
}

/// What becomes of what lies in a directory that the path specs take out: by its path, or by its
/// name, which has a slash at its end. `:!b*/` and `:!b[1]` take out `b1`, `:!ab?` takes out `ab`.
///
/// See docs/DIFFERENCES.md#plan-spec-entered.
#[derive(Clone, Copy, Debug, PartialEq, Eq, Hash)]
pub enum TakenOut {
    /// It may be removed, unless the path specs take it out itself.
    Open,
    /// It stays.
    Closed,
}

/// Which paths may be removed, what becomes of other nodes among them, and what of those in a
/// directory that the path specs take out.
#[derive(Clone, Copy, Debug, PartialEq, Eq, Hash)]
pub struct Wanted {
    pub what: What,
    pub others: OtherNodes,
    pub taken_out: TakenOut,
}

impl Wanted {
    /// Each entry of the report may be removed for what is said of it: other nodes too, and what
    /// the path specs do not take out itself.
    pub fn allowing_special_and_spec_excluded(what: What) -> Wanted
        ensures { result ≡ allowing_special_and_spec_excluded what }
    {
        Wanted {
            what,
            others: OtherNodes::Go,
            taken_out: TakenOut::Open,
        }
    }

    /// What git does not look at stays too: other nodes, unless a directory above them goes as a
    /// whole, and what lies in a directory that the path specs take out.
    pub fn keeping_special_and_spec_excluded(what: What) -> Wanted
        ensures { result ≡ keeping_special_and_spec_excluded what }
    {
        Wanted {
            what,
            others: OtherNodes::Stay,
            taken_out: TakenOut::Closed,
        }
    }
}

/// How repositories are looked for that must not be lost.
#[derive(Clone, Copy, Debug, PartialEq, Eq, Hash)]
pub enum Finding {
    /// Those with a work tree of their own, also in ignored directories.
    NonBare,
    /// Bare ones too.
    All,
}
