//! The texts of answers: one line for each statement, each shared step and each stop.
//!
//! It knows neither how an answer came about nor who reads it. The lines of shared steps and stops are printed into room
//! that was made before, so that a step which was taken never stays unprinted. Each text stands in `specs/Texts.antt`.
#![tactic(auto)]

mod answer;
mod step;

pub use answer::{answer_line, print_answer};
pub use step::{STEP_ROOM, STOP_ROOM, print_step, print_stop};
pub use xod_base::print_query;
