//! What every store keeps of its journal: who has a transaction open, and room for what is to come.
//!
//! The open transactions are asked who is in the way of a begin. Room in a journal is taken before its entry is made, and
//! there is always some for one stop of each session that goes on.
#![tactic(auto)]

mod room;
mod txns;

pub use room::{enter, make_room, with_room};
pub use txns::TxnMap;
