//! The words of a line: names, numbers, ids, texts and values, and the queries that they make.
//!
//! It knows nothing of statements and sessions, and it is handed bytes alone. Which words there are stands in `specs/`.
#![tactic(auto)]

mod draft;
mod front;
mod laws;
mod names;
mod numbers;
mod part;
mod query;
mod values;
mod words;

pub use draft::{Draft, Ent, VarList, VarUse};
pub use laws::what_is_printed_is_read_back;
pub use names::{read_name, read_session_name, read_variable};
pub use numbers::{count, read_count};
pub use query::{read_draft, read_query};
pub use values::{read_ent, read_value};
pub use words::{
    Unread, begins_with, is_word, next_word, no_word, one_word, three_words, two_words,
};
