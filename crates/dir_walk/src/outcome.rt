//! What a walk did, in numbers.

/// The counts of a walk. A count stands still at the last value of its type.
///
/// See docs/DIFFERENCES.md#gix-counts.
#[derive(Clone, Debug, PartialEq, Eq, PartialOrd, Ord, Default, Drop)]
pub struct Outcome {
    /// How many directories were entered.
    pub read_dir_calls: u32,
    /// How many entries the delegate was given.
    pub returned_entries: usize,
    /// How many entries were put out or merged into a folded directory, hidden ones among them.
    pub seen_entries: u32,
}
