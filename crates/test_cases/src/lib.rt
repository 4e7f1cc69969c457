//! What tables of test cases are cut with, and the trees in memory that their steps make.
//!
//! A case begins with an `@` at the start of a line, each of its steps with a line feed and two
//! blanks. Fields have their name and a colon at the start of a line.
#![tactic(auto)]

mod nodes;
mod rows;
mod trees;

pub use nodes::{try_add_git_directory, try_add_node_of_kind};
pub use rows::{
    held, lines_of_field_steps, parse_saturating_decimal, replace_marks_by_line_feeds,
    split_at_byte, split_at_mark, value_of_first_digit,
};
pub use trees::{tree_from_steps, try_apply_tree_step};
