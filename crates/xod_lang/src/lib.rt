//! The language of the input: from bytes to a script, or to the first line that is bad.
//!
//! It knows nothing of rows and answers, and it is handed bytes alone. What a script is stands in `specs/`.
#![tactic(auto)]

mod items;
mod line;
mod pool;
mod pooled;
mod read;
mod reading;
mod script;
mod standing;
mod statements;

pub use read::read_script;
pub use script::{
    Form, Item, OrderItem, OrderList, Script, ScriptError, SessionList, SessionScript, Statement,
    StatementList, Turned,
};
pub use standing::Standing;
pub use xod_words::{Draft, Ent, VarList, VarUse, read_query, what_is_printed_is_read_back};
