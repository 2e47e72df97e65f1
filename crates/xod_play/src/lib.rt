//! Players: sessions that play the order of a script over any space.
//!
//! Sessions are seated, an order is played turn by turn to its end or up to its first item that can't be taken, what came
//! of it is printed, and the sessions are ended. What one turn comes to stands in `specs/Players.antt`, what stands behind
//! an order in `specs/Rounds.antt`, and for which causes the stops of a run came in `specs/Stops.antt`.
#![tactic(auto)]

mod finish;
mod gathered;
mod player;
mod rounds;
mod stops;
mod transcript;

pub use finish::{finish_all, let_all_go};
pub use gathered::{Gathered, gather};
pub use player::Player;
pub use rounds::{replay, seat};
pub use stops::{meets_damage, meets_fault, meets_spent, wants_memory};
