//! The modes of nodes and of entries.
ghost use Rattle.std.specs.Prelude.{◌≡◌};
ghost use Rattle.diff_files.specs.Modes as modes;

use crate::comparison::Comparison;

/// The bits of a mode that tell the kind of a node.
pub fn file_type_bits(mode: u32) -> u32
    ensures { result ≡ modes.file_type_bits mode }
{
    mode / 4096 % 16
}

/// Whether a mode is that of a regular file.
pub fn is_regular_file_mode(mode: u32) -> bool
    ensures { result ≡ modes.is_regular_file_mode mode }
{
    file_type_bits(mode) == 8
}

/// Whether a mode is that of a symbolic link.
pub fn is_symlink_mode(mode: u32) -> bool
    ensures { result ≡ modes.is_symlink_mode mode }
{
    file_type_bits(mode) == 10
}

/// Whether a mode is that of a directory.
pub fn is_directory_mode(mode: u32) -> bool
    ensures { result ≡ modes.is_directory_mode mode }
{
    file_type_bits(mode) == 4
}

/// Whether a mode is that of a submodule's commit.
pub fn is_submodule_mode(mode: u32) -> bool
    ensures { result ≡ modes.is_submodule_mode mode }
{
    file_type_bits(mode) == 14
}

/// The bit that says whether the owner may execute a file.
pub fn owner_executable_bit(mode: u32) -> u32
    ensures { result ≡ modes.owner_executable_bit mode }
{
    mode / 64 % 2
}

/// Whether the owner may execute what has this mode.
fn is_owner_executable(mode: u32) -> bool
    ensures { result ≡ modes.is_owner_executable mode }
{
    owner_executable_bit(mode) == 1
}

/// The mode that git has for a node.
fn git_mode_of_node_mode(mode: u32) -> u32
    ensures { result ≡ modes.git_mode_of_node_mode mode }
{
    if is_symlink_mode(mode) {
        0o120000
    } else if mode == 0o040000 {
        0o040000
    } else if is_directory_mode(mode) {
        0o160000
    } else if is_owner_executable(mode) {
        0o100755
    } else {
        0o100644
    }
}

/// The mode that git has for a file in the place of an entry of the mode `old`.
fn git_mode_of_file_in_place_of(comparison: &Comparison, old: u32, mode: u32) -> u32
    ensures { result ≡ modes.git_mode_of_file_in_place_of comparison.now old mode }
{
    if !comparison.symlinks & is_symlink_mode(old) {
        old
    } else if comparison.file_mode {
        git_mode_of_node_mode(mode)
    } else if is_regular_file_mode(old) {
        old
    } else {
        0o100644
    }
}

/// The mode that git has for a node in the place of an entry of the mode `old`.
#[tactic(auto, unfolding(crate::specs::Modes::git_mode_of_node_in_place_of))]
pub fn git_mode_of_node_in_place_of(comparison: &Comparison, old: u32, mode: u32) -> u32
    ensures { result ≡ modes.git_mode_of_node_in_place_of comparison.now old mode }
{
    if is_regular_file_mode(mode) {
        return git_mode_of_file_in_place_of(comparison, old, mode);
    }
    git_mode_of_node_mode(mode)
}
