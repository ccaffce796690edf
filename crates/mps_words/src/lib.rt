//! The words of MPS lines: names with their places, numbers, and the names of sections.
#![tactic(auto)]

mod bound_words;
mod codes;
mod data_words;
mod front_words;
mod keyword;
mod name_sets;
mod names;
mod row_marks;
mod runs;
mod set_name;
mod short_codes;
mod words;

pub use bound_words::{
    bound_kind_of, bound_kind_of_two, bound_place, bound_set, has_bound_form, needs_number,
    no_number, read_number,
};
pub use data_words::{
    has_side_form, is_bad_set, is_marker, is_stretch_begin, is_stretch_end, is_word_with_pairs,
    row_in, row_kind_of_one, sense_of, side_pairs, side_set,
};
pub use front_words::{
    NumberText, PairText, after_space, first_name, first_number, first_pair, is_marker_word,
};
pub use keyword::{Keyword, keyword_of, last_of, may_come, stage};
pub use name_sets::after_bytes;
pub use names::{MOST_NAMES, Names};
pub use row_marks::RowMarks;
pub use set_name::SetName;
pub use words::{after_first, is_data, is_left_out, three_words};
