//! The eight trees that stand for a store's rows: which map each of them is, and which rows are read back from trees.
//!
//! The keys and values are in `specs/Keys.antt`, the tables in `specs/Tables.antt`, the way back in `specs/Reading.antt`.
//! Nothing here runs but the numbers of the trees.
#![tactic(auto)]

mod laws;
mod trees;

pub use laws::{
    empty_trees_are_no_rows, fronts_decide, keys_are_apart, keys_rise, new_keys_stand, one_rows,
    rows_are_read_exactly, sound_rows_have_tables, sound_trees_answer, tables_are_tested,
    touches_show_as_writes,
};
pub use trees::{BACK, ENTITIES, INDEX, LINKS, NAMES, NEXT, NUMBERS, PROPERTIES};
