//! Sessions: a script played statement by statement over any space.
//!
//! What a script and a journal make of each other stands in `specs/Sessions.antt` and `specs/World.antt`, and the
//! laws of both in `specs/Laws.antt`.
#![tactic(auto)]

mod course;
mod dialogue;
mod filling;
mod laws;
mod private;
mod row;
mod session;
mod turn;
mod variables;

pub use course::{Course, Due, SharedStep, Spot, Tried};
pub use dialogue::Dialogue;
pub use laws::{
    items_make_a_journal, order_determines_journal, others_leave_a_session, sessions_agree,
    sessions_go_on, sessions_make_a_world,
};
pub use session::{Next, Progress, Session};
