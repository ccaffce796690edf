// The lines of segments of .nl texts: what they are and say, what judges them by themselves, and
// where an owner's lines stand.
#![tactic(auto)]

mod awaited;
mod earlier_runs;
mod fault;
mod front_heads;
mod front_leaves;
mod front_lines;
mod front_words;
mod head;
mod head_rules;
mod heads;
mod intervals;
mod judging;
mod leaf;
mod leaf_row;
mod line_runs;
mod node_row;
mod nodes;
mod number_lines;
mod owner_lines;
mod pair_line;
mod pairs;
mod pending;
mod segment;
mod words;

pub use awaited::{Awaited, is_nothing};
pub use fault::{NlFault, NlReason};
pub use front_heads::{FirstHead, first_head};
pub use front_leaves::{FirstLeaf, first_leaf};
pub use front_lines::{FirstInterval, FirstWhole, first_interval, first_whole};
pub use head::Head;
pub use head_rules::{
    MOST_TERMS, has_tree, holds_once, is_full, is_linear, is_sides, is_suffix, keeps_pairs,
    line_count, line_kind, mark_count, mark_of,
};
pub use heads::{is_in_range, read_head};
pub use intervals::{is_refused_interval, read_interval};
pub use judging::read_next_pair;
pub use leaf::Leaf;
pub use leaf_row::read_leaf_row;
pub use node_row::NodeRow;
pub use nodes::read_node;
pub use number_lines::{is_operand_count, read_column, read_operand_count};
pub use owner_lines::OwnerLines;
pub use pair_line::{FirstPair, first_pair};
pub use pending::Pending;
pub use words::is_head;
