//! The words that all crates share: bytes and texts, values and rows, acts, queries and answers, and why the outside
//! failed.
//!
//! Nothing here reads, writes or waits. What each word means stands in `specs/`, and in docs/DEFINITIONS.md in plain
//! words.
#![tactic(auto)]

mod answer;
mod causes;
mod ids;
mod key;
mod laws;
mod limits;
mod listed;
mod pair;
mod print;
mod query;
mod text;
mod value;
mod view;

pub use answer::{
    ActAnswer, Answer, FlushAnswer, LinkList, NameKind, NameList, PropList, Reply, Shown, StmtError,
};
pub use causes::{Cause, Failed, Memory, Place, ReadError};
pub use ids::IdList;
pub use laws::{keys_are_in_the_order_of_values, keys_are_read_back, no_key_begins_another};
pub use limits::{
    DEEPEST_QUERY, INPUT_LIMIT, LONGEST_NAME, LONGEST_SESSION_NAME, LONGEST_TEXT, MOST_LOCALS,
    MOST_NAMES, MOST_PARTS, MOST_SESSIONS, MOST_TRIES,
};
pub use listed::{Bytes, Listed};
pub use pair::Pair;
pub use print::{print_query, push_id, push_value};
pub use query::{Act, Direction, Mode, Query};
pub use text::{Text, is_utf8};
pub use value::{EntityId, Value};
pub use view::TreeView;
